//! Texts as they are laid out. The values follow from the rules, by hand.

use crate::{Look, NameFault, Names, NamesParseError, chain_layout, log_layout, painted};
use std::alloc::Global;
use std::test::Fail;

// The ids of two keys, of which the first is that of `toy:YWxpY2U=`.
const ALICE: &str = "sha256:6f03ae61d0fd3df261d400afe99bdcd613f266104552b6ad5281c7666633c6e2";

const BOB: &str = "sha256:bbbbbbbbbbbbbbbbbbbbbbbbbbbbbbbbbbbbbbbbbbbbbbbbbbbbbbbbbbbbbbbb";

// The names of these keys, of which the first is given by its text, and the second by its id.
const NAMES: &str = "# who is who

toy:YWxpY2U= alice at work
sha256:bbbbbbbbbbbbbbbbbbbbbbbbbbbbbbbbbbbbbbbbbbbbbbbbbbbbbbbbbbbbbbbb bob
toy:YWxpY2U= somebody else
";

const LOG: &str = "\
0 sha256:0123456789abcdef0123456789abcdef0123456789abcdef0123456789abcdef 1970-01-01T00:00:01Z \
sha256:6f03ae61d0fd3df261d400afe99bdcd613f266104552b6ad5281c7666633c6e2 grant toy:Ym9i release, \
release 1.0.0 sha256:9999999999999999999999999999999999999999999999999999999999999999, yank 1.0.0
head sha256:0123456789abcdef0123456789abcdef0123456789abcdef0123456789abcdef
key sha256:bbbbbbbbbbbbbbbbbbbbbbbbbbbbbbbbbbbbbbbbbbbbbbbbbbbbbbbbbbbbbbbb toy:Ym9i release
release 1.0.0 yanked by sha256:6f03ae61d0fd3df261d400afe99bdcd613f266104552b6ad5281c7666633c6e2 at 1970-01-01T00:00:04Z
release 1.10.0 sha256:9999999999999999999999999999999999999999999999999999999999999999
release 1.0.0-a.version.longer.than.24 sha256:9999999999999999999999999999999999999999999999999999999999999999
";

const CHAIN: &str = "\
0 0 1970-01-01T00:00:01Z sha256:6f03ae61d0fd3df261d400afe99bdcd613f266104552b6ad5281c7666633c6e2 to \
sha256:bbbbbbbbbbbbbbbbbbbbbbbbbbbbbbbbbbbbbbbbbbbbbbbbbbbbbbbbbbbbbbbb
2 0 1970-01-01T00:00:01Z sha256:bbbbbbbbbbbbbbbbbbbbbbbbbbbbbbbbbbbbbbbbbbbbbbbbbbbbbbbbbbbbbbbb to \
sha256:9999999999999999999999999999999999999999999999999999999999999999
";

fn look(alloc: Global, names: &str, full: bool) -> Result<Look, NamesParseError> {
    Ok(Look {
        full,
        names: Names::parse(alloc, names)?,
    })
}

#[test]
fn names_are_read(rt: HostRuntime) -> Result<(), Fail> {
    let names = Names::parse(rt.alloc(), NAMES)?;
    assert_eq!(rt; names.of(BOB), Some("bob"));
    assert_eq!(rt; names.of(ALICE), Some("alice at work"));
    assert_eq!(rt; names.of("toy:YWxpY2U="), None);
    assert_eq!(rt; Names::new(rt.alloc()).of(BOB), None);
    let hidden = Names::parse(rt.alloc(), "toy:YWxpY2U= a\u{202e}b\n")?;
    assert_eq!(rt; hidden.of(ALICE), Some("a\\u{202e}b"));
    Ok(())
}

#[test]
fn faults_are_told(rt: HostRuntime) {
    for (text, line, fault) in [
        ("alice alice", 1, NameFault::NoKey),
        ("\n# bob\nsha256:bbbb bob\nalice", 3, NameFault::NoKey),
        ("toy:YWxpY2U= alice\ntoy:Ym9i", 2, NameFault::NoName),
        ("toy:YWxpY2U= ", 1, NameFault::NoName),
    ] {
        match Names::parse(rt.alloc(), text) {
            Ok(_) => assert!(rt; false, "{text}"),
            Err(error) => assert_eq!(rt; error, NamesParseError { line, fault }, "{text}"),
        }
    }
}

#[test]
fn logs_are_laid_out(rt: HostRuntime) -> Result<(), Fail> {
    let look = look(rt.alloc(), NAMES, false)?;
    let laid = log_layout(rt.alloc(), &look, LOG)?;
    assert_eq!(rt;
        laid.as_str(),
        "\
0 sha256:0123456789ab 1970-01-01T00:00:01Z \
alice at work grant toy:Ym9i release, release 1.0.0 sha256:999999999999, yank 1.0.0
head sha256:0123456789ab
key bob toy:Ym9i release
release 1.0.0  yanked by alice at work at 1970-01-01T00:00:04Z
release 1.10.0 sha256:999999999999
release 1.0.0-a.version.longer.than.24 sha256:999999999999
"
    );
    Ok(())
}

#[test]
fn ids_are_whole_if_wanted(rt: HostRuntime) -> Result<(), Fail> {
    let look = look(rt.alloc(), "", true)?;
    let laid = log_layout(rt.alloc(), &look, LOG)?;
    assert_eq!(rt;
        laid.as_str(),
        "\
0 sha256:0123456789abcdef0123456789abcdef0123456789abcdef0123456789abcdef 1970-01-01T00:00:01Z \
sha256:6f03ae61d0fd3df261d400afe99bdcd613f266104552b6ad5281c7666633c6e2 grant toy:Ym9i release, \
release 1.0.0 sha256:9999999999999999999999999999999999999999999999999999999999999999, yank 1.0.0
head sha256:0123456789abcdef0123456789abcdef0123456789abcdef0123456789abcdef
key sha256:bbbbbbbbbbbbbbbbbbbbbbbbbbbbbbbbbbbbbbbbbbbbbbbbbbbbbbbbbbbbbbbb toy:Ym9i release
release 1.0.0  yanked by sha256:6f03ae61d0fd3df261d400afe99bdcd613f266104552b6ad5281c7666633c6e2 at 1970-01-01T00:00:04Z
release 1.10.0 sha256:9999999999999999999999999999999999999999999999999999999999999999
release 1.0.0-a.version.longer.than.24 sha256:9999999999999999999999999999999999999999999999999999999999999999
"
    );
    Ok(())
}

#[test]
fn chains_are_laid_out(rt: HostRuntime) -> Result<(), Fail> {
    let look = look(rt.alloc(), NAMES, false)?;
    let laid = chain_layout(rt.alloc(), &look, CHAIN)?;
    assert_eq!(rt;
        laid.as_str(),
        "\
0 0 1970-01-01T00:00:01Z alice at work to bob
  2 0 1970-01-01T00:00:01Z bob to sha256:999999999999
"
    );
    Ok(())
}

#[test]
fn answers_are_painted(rt: HostRuntime) -> Result<(), Fail> {
    let text = "ok 3\nrefused 1\nhead x\nwhy: it is so\nit is ok\nbusy\n";
    let painted = painted(rt.alloc(), text)?;
    assert_eq!(rt;
        painted.as_str(),
        "\
\u{1b}[32mok\u{1b}[0m 3
\u{1b}[31mrefused\u{1b}[0m 1
\u{1b}[1mhead\u{1b}[0m x
\u{1b}[33mwhy:\u{1b}[0m it is so
it is ok
\u{1b}[31mbusy\u{1b}[0m
"
    );
    Ok(())
}
