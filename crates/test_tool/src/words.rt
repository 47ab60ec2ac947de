//! Words and marks in their spellings.

use sdl_tree::{Case, Keyword, Mark, is_reserved, keyword_of, left_out, sign_of};
use std::test::Fail;

#[test]
fn knows_the_spellings(rt: HostRuntime) {
    assert!(rt;
        matches!(
            keyword_of(b"SIGNALLIST"),
            Some(Keyword {
                mark: Mark::SignalList,
                case: Case::Upper
            })
        )
    );
    assert!(rt;
        matches!(
            keyword_of(b"self"),
            Some(Keyword {
                mark: Mark::SelfPid,
                case: Case::Lower
            })
        )
    );
    assert!(rt;
        matches!(
            keyword_of(b"True"),
            Some(Keyword {
                mark: Mark::True,
                case: Case::Capital
            })
        )
    );
    assert!(rt; keyword_of(b"System").is_none());
    assert!(rt; keyword_of(b"trUE").is_none());
    assert!(rt; matches!(sign_of(b"=>"), Some(Mark::Implies)));
    assert!(rt; sign_of(b"=<").is_none());
}

#[test]
fn knows_what_is_left_out(rt: HostRuntime) {
    assert!(rt; left_out(b"SYNTYPE") == Some("syntype"));
    assert!(rt; left_out(b"via") == Some("via"));
    assert!(rt; left_out(b"Via").is_none());
    assert!(rt; is_reserved(b"any"));
    assert!(rt; is_reserved(b"NULL"));
    assert!(rt; !is_reserved(b"Any"));
    assert!(rt; !is_reserved(b"PId"));
}

#[test]
fn writes_marks(rt: HostRuntime) -> Result<(), Fail> {
    let text = format!(in rt.alloc(); "{} {} {}", Mark::EndDecision, Mark::Null, Mark::NotEqual)?;
    assert!(rt; text.as_str() == "enddecision null /=");
    Ok(())
}
