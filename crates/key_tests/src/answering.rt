//! The answers of keys, by the prover of the rules.

use crate::keys::{NOTHING, SMALL};
use leg_check::{LegEnd, answer_leg};
use lk_io::NeverStop;
use program_trees::{Answer, Reason};
use rule_prover::RuleProver;
use std::alloc::Global;
use std::test::Fail;

fn answer(alloc: Global, key: &[u8]) -> Result<Answer, LegEnd> {
    answer_leg(alloc, key, &mut RuleProver::new(0, NeverStop))
}

#[test]
fn legs_of_keys_are_proved(rt: HostRuntime) -> Result<(), Fail> {
    for key in [&NOTHING[..], &SMALL[..]] {
        let told = answer(rt.alloc(), key);
        assert!(rt; told == Ok(Answer::Proved));
    }
    Ok(())
}

#[test]
fn a_check_that_is_false_is_named(rt: HostRuntime) -> Result<(), Fail> {
    // The variable is checked to be less than -3.
    let mut key = SMALL;
    for place in &mut key[45..] {
        *place = 255;
    }
    key[60] = 253;
    let told = answer(rt.alloc(), &key);
    assert!(rt;
        matches!(
            told,
            Ok(Answer::Unproved {
                item: 1,
                reason: Reason::Open,
                ..
            })
        )
    );
    Ok(())
}

#[test]
fn other_bytes_are_no_key(rt: HostRuntime) -> Result<(), Fail> {
    for key in [&[][..], &NOTHING[1..], &SMALL[..60]] {
        let told = answer(rt.alloc(), key);
        assert!(rt; told == Err(LegEnd::BadKey));
    }
    Ok(())
}
