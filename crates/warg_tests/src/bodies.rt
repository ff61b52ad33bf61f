//! Bodies of JSON that are read of what is asked of their texts.
use std::alloc::Global;
use std::test::Fail;
use warg_protocol::json::read_asked;
use warg_protocol::{JsonError, JsonTextError, JsonValue, ProtoEnvelopeBody};

// What a body reads of its JSON.
const ASKED: [&str; 3] = ["contentBytes", "keyId", "signature"];

// The body of a text, read of what is asked of it.
fn body_of(alloc: Global, text: &str) -> Result<ProtoEnvelopeBody, JsonTextError> {
    let value = read_asked(alloc, text, &ASKED, 1)?;
    Ok(ProtoEnvelopeBody::from_value(alloc, &value)?)
}

// What is not asked for changes nothing, whatever stands in it.
#[test]
fn other_members(rt: HostRuntime) -> Result<(), Fail> {
    let alone = body_of(
        rt.alloc(),
        r#"{"contentBytes":"AQID","keyId":"k","signature":"toy:"}"#,
    );
    let among = body_of(
        rt.alloc(),
        r#"{"a":[[{"keyId":3}]],"contentBytes":"AQID","b":{"signature":{}},"keyId":"k","signature":"toy:","c":null}"#,
    );
    assert!(rt; alone.is_ok());
    assert_eq!(rt; alone, among);
    Ok(())
}

// The last of two members of one name is taken.
#[test]
fn a_member_twice(rt: HostRuntime) -> Result<(), Fail> {
    let twice = r#"{"keyId":3,"contentBytes":"AQID","keyId":"k","signature":"toy:"}"#;
    assert!(rt; body_of(rt.alloc(), twice).is_ok());
    let wrong = r#"{"keyId":"k","contentBytes":"AQID","keyId":3,"signature":"toy:"}"#;
    let fault = body_of(rt.alloc(), wrong).err();
    assert_eq!(rt; fault, Some(JsonTextError::Value(JsonError::WrongType)));
    Ok(())
}

// A fault is one of the whole text, also where nothing is asked for.
#[test]
fn faults(rt: HostRuntime) -> Result<(), Fail> {
    for text in [
        "",
        r#"{"contentBytes":"AQID","keyId":"k","signature":"toy:","a":[01]}"#,
        r#"{"contentBytes":"AQID","keyId":"k","signature":"toy:"} x"#,
        r#"{"a":"\ud800","contentBytes":"AQID","keyId":"k","signature":"toy:"}"#,
    ] {
        let fault = body_of(rt.alloc(), text).err();
        assert_eq!(rt; fault, Some(JsonTextError::NotJson));
    }
    Ok(())
}
