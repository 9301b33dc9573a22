//! The principals of a command, where the declarations have them.

ghost use Rattle.std.specs.Prelude.{◌≡◌, ◌≢◌, ℕ, IfErr, IfOk, List, None, OnOk, map};
ghost use Rattle.std.specs.List.{All};
ghost use Rattle.rp_decl.specs.View.{declarations_view};
ghost use Rattle.rp_interact.specs.Why.{first_unknown};
ghost use Rattle.rp_run.specs.Refusals.{OnRefusal, RefusesUnknown};
ghost use Rattle.rp_run.specs.Steps.{IsCommandStatus};
ghost use Rattle.rp_run.specs.Told.{all_ids};
ghost use Rattle.rp_run.specs.View.{AnswersInAll};
ghost use Rattle.rp_words.specs.View.{pair_view};

use crate::answer::Answer;
use crate::stop::Stop;
use rp_base::Text;
use rp_decl::Decl;
use rp_interact::{Interaction, WhoFault};
use rp_words::Pair;
use std::alloc::Global;

/// The principals of each pair of a run, where they are declared.
///
/// # Errors
/// `Refused` where one of the ids is that of no principal, `Memory` where a growth was refused.
pub fn find_all_principals(
    alloc: Global,
    decl: &Decl,
    pairs: &[Pair],
) -> Result<Vec<Interaction>, Stop>
    ensures known { OnOk result ((names : List (List ℕ))
        → first_unknown (declarations_view names decl.now) (all_ids (map pair_view pairs.now)) ≡ None) }
    ensures ids { IfOk result (λ all. map (λ i. i.ids) all.items ≡ map (λ p. p.ids) (map pair_view pairs.now)) }
    ensures answers { IfOk result (λ all. All (AnswersInAll decl.now) all.items) }

    ensures refused { IfErr result (OnRefusal (RefusesUnknown decl.now (all_ids (map pair_view pairs.now)))) }
    ensures status { IfErr result (OnRefusal (λ a. IsCommandStatus a.status.0)) }
    ensures unfailed { IfErr result (λ stop. stop ≢ Stop.Failed) }
{
    let mut all = Vec::new(alloc);
    for pair in pairs {
        all.push(find_principals(alloc, decl, pair.ids.as_slice())?)?;
    }
    Ok(all)
}

/// The principals with these ids, where they are declared.
///
/// # Errors
/// `Refused` where one of the ids is that of no principal, `Memory` where a growth was refused.
pub fn find_principals(alloc: Global, decl: &Decl, ids: &[Text]) -> Result<Interaction, Stop>
    ensures known { OnOk result ((names : List (List ℕ))
        → first_unknown (declarations_view names decl.now) ids.now ≡ None) }
    ensures ids { IfOk result (λ i. i.ids ≡ ids.now) }
    ensures answers { IfOk result (AnswersInAll decl.now) }

    ensures refused { IfErr result (OnRefusal (RefusesUnknown decl.now ids.now)) }
    ensures status { IfErr result (OnRefusal (λ a. IsCommandStatus a.status.0)) }
    ensures unfailed { IfErr result (λ stop. stop ≢ Stop.Failed) }
{
    match Interaction::new(alloc, decl, ids) {
        Ok(interaction) => Ok(interaction),
        Err(WhoFault::Unknown(id)) => Err(Stop::Refused(Answer::labelled(
            alloc,
            "principal: ",
            &id,
            3,
        )?)),
        Err(WhoFault::Memory) => Err(Stop::Memory),
    }
}
