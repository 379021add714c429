//! The texts of errors, and the numbers of the rules that they say are broken.
use entry_tree::TreeErr;
use rv_bytes::{CutErr, DwErr};
use rv_io::Memory;
use std::test::Fail;

#[test]
fn errors_of_bytes_have_texts_and_rules(rt: HostRuntime) -> Result<(), Fail> {
    let alloc = rt.alloc();
    let refusals: [(CutErr, &str, u8); 5] = [
        (
            CutErr::Short { at: 7 },
            "the bytes end inside the item at 7",
            10,
        ),
        (CutErr::Wide { at: 7 }, "the number at 7 is too wide", 11),
        (CutErr::NoZero { at: 7 }, "no zero byte follows 7", 12),
        (CutErr::NoText { at: 7 }, "the bytes at 7 are no text", 14),
        (
            CutErr::Kind { at: 7 },
            "no numeric leaf is known by the kind at 7",
            13,
        ),
    ];
    for (e, text, rule) in refusals.iter() {
        assert_eq!(rt; format!(in alloc; "{e}")?.as_str(), *text);
        assert_eq!(rt;
            DwErr::from(*e),
            DwErr::Refused {
                offset: 7,
                rule: *rule
            }
        );
    }
    assert_eq!(rt; DwErr::from(Memory), DwErr::Memory);
    let refused = DwErr::Refused {
        offset: 7,
        rule: 10,
    };
    assert_eq!(rt;
        format!(in alloc; "{refused}")?.as_str(),
        "offset 7 breaks rule 10"
    );
    Ok(())
}

#[test]
fn errors_of_trees_have_texts(rt: HostRuntime) -> Result<(), Fail> {
    for (e, wanted) in [
        (TreeErr::Deep, "entries are nested more than 256 deep"),
        (TreeErr::Full, "more than 8000000 entries"),
        (TreeErr::Memory, "out of memory"),
    ] {
        assert!(rt; format!(in rt.alloc(); "{e}")?.as_str() == wanted);
    }
    Ok(())
}
