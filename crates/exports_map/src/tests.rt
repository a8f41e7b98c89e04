ghost use Rattle.std.specs.Prelude.{◌≤◌, length};

use crate::{Access, RuleFault, RuleList, Rules};
use std::alloc::{AllocError, Global};
use std::test::Fail;

fn texts(alloc: Global, items: &[&str]) -> Result<Vec<String>, AllocError> {
    let mut texts = Vec::new(alloc);
    for item in items {
        texts.push(String::from_str(alloc, item)?)?;
    }
    Ok(texts)
}

// As many as a list may have.
fn few(texts: &Vec<String>) -> &[String]
    ensures { length result.now ≤ 256 }
{
    &texts[..texts.len().min(256)]
}

// Reads these export rules.
fn exports(alloc: Global, items: &[&str]) -> Result<Result<Rules, RuleFault>, AllocError> {
    Ok(Rules::read(alloc, few(&texts(alloc, items)?), &[], &[]))
}

#[test]
fn the_first_rule_that_fits_decides(rt: HostRuntime) -> Result<(), Fail> {
    let alloc = rt.alloc();
    let rules = exports(
        alloc,
        &["10.1.2.3/32 ro", "10.1.0.0/16 rw", "0.0.0.1/32 ro"],
    )??;
    // 10.1.2.3, 10.1.2.4, 10.2.0.0 and 0.0.0.1
    assert_eq!(rt; rules.rule_of(0x0a01_0203), 1);
    assert_eq!(rt; rules.rule_of(0x0a01_0204), 2);
    assert_eq!(rt; rules.rule_of(0x0a02_0000), 0);
    assert_eq!(rt; rules.rule_of(1), 3);
    assert_eq!(rt; rules.access_of(0x0a01_0203), Access::ReadOnly);
    assert_eq!(rt; rules.access_of(0x0a01_0204), Access::Full);
    assert_eq!(rt; rules.access_of(0x0a02_0000), Access::Denied);
    Ok(())
}

#[test]
fn no_bit_is_compared_and_no_rule_is_there(rt: HostRuntime) -> Result<(), Fail> {
    let alloc = rt.alloc();
    let rules = exports(alloc, &["1.2.3.4/0 ro"])??;
    assert_eq!(rt; rules.rule_of(u32::MAX), 1);
    assert_eq!(rt; rules.access_of(0), Access::ReadOnly);
    let none = exports(alloc, &[])??;
    assert_eq!(rt; none.rule_of(7), 0);
    assert_eq!(rt; none.access_of(7), Access::Full);
    Ok(())
}

#[test]
fn bad_rules_are_refused(rt: HostRuntime) -> Result<(), Fail> {
    let alloc = rt.alloc();
    let bad = [
        "1.2.3/8 rw",
        "1.2.3.256/8 rw",
        "1.2.3.04/8 rw",
        "1.2.3.4/33 rw",
        "1.2.3.4/8  rw",
        "1.2.3.4/8 r",
        "1.2.3.4 rw",
        "1.2.3.4/8",
        "+1.2.3.4/8 rw",
        "1.2.3.4/8 rw ",
        "",
    ];
    for text in &bad {
        let refused = exports(alloc, &["0.0.0.0/0 rw", text])?;
        assert!(rt;
            matches!(
                refused,
                Err(RuleFault::Bad {
                    list: RuleList::Exports,
                    item: 2,
                },)
            )
        );
    }
    Ok(())
}

#[test]
fn ids_are_mapped(rt: HostRuntime) -> Result<(), Fail> {
    let alloc = rt.alloc();
    let uids = texts(alloc, &["1000 0", "1000 1", "4294967295 7"])?;
    let gids = texts(alloc, &["5 6"])?;
    let rules = Rules::read(alloc, &[], few(&uids), few(&gids))?;
    assert_eq!(rt; rules.uid_of(1000), 0);
    assert_eq!(rt; rules.uid_of(u32::MAX), 7);
    assert_eq!(rt; rules.uid_of(5), 5);
    assert_eq!(rt; rules.gid_of(5), 6);
    let bad = texts(alloc, &["1 2", "1 2 3"])?;
    let refused = Rules::read(alloc, &[], few(&uids), few(&bad));
    assert!(rt;
        matches!(
            refused,
            Err(RuleFault::Bad {
                list: RuleList::Gids,
                item: 2,
            },)
        )
    );
    Ok(())
}
