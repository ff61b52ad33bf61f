//! Members that are put into objects, in any order.

use crate::crypto::values::is;
use serde_json::Map;
use warg_crypto::json::members::{
    object_value, optional, put_member, put_optional, put_value, text_value,
};

#[test]
fn put_members(rt: HostRuntime) {
    let alloc = rt.alloc();
    let mut map = Map::new(alloc);
    let text = text_value(alloc, "x").expect(&rt, "memory");
    is(&rt, put_value(&mut map, alloc, "b", &1u32), Ok(()));
    is(&rt, put_optional(&mut map, alloc, "c", &Some(2u32)), Ok(()));
    is(
        &rt,
        put_optional::<u32>(&mut map, alloc, "d", &None),
        Ok(()),
    );
    is(&rt, put_member(&mut map, alloc, "a", text), Ok(()));
    let written = object_value(map).to_string(alloc).expect(&rt, "memory");
    is(&rt, written.as_str(), "{\"a\":\"x\",\"b\":1,\"c\":2}");
    is(&rt, optional::<u32>(alloc, None), Ok(None));
}
