//! The command `may`: whether principals have a permission, and why.

ghost use Rattle.std.specs.Prelude.{◌≡◌, ◌≢◌, ◌<◌, ◌≤◌, ◌++◌, ℕ, List, Some, IfErr, IfOk, IfSome, IsErrOf, OnOk};
ghost use Rattle.std.specs.Prelude.{codes, length, position};
ghost use Rattle.rp_base.specs.Same.{same_text};
ghost use Rattle.rp_decl.specs.InOrder.{AreInOrder};
ghost use Rattle.rp_decl.specs.View.{declarations_view, group_ids, perm_text, role_ids, text_at};
ghost use Rattle.rp_interact.specs.Answers.{AnswersAs, reason_view};
ghost use Rattle.rp_run.specs.Headline.{BeginsNamed, FailsAtNamed};
ghost use Rattle.rp_run.specs.Output.{may_status, may_text, reason_line, reason_words, yes_or_no};
ghost use Rattle.rp_run.specs.Refusals.{OnAnswer, OnRefusal, RefusesUndeclared};
ghost use Rattle.rp_run.specs.Steps.{IsCommandStatus};
ghost use Rattle.rp_run.specs.Told.{ToldMay};
ghost use Rattle.rp_words.specs.Command.{may};
ghost use Rattle.rp_words.specs.View.{may_view};

use crate::admitting::find_principals;
use crate::answer::Answer;
use crate::declaring::read_declarations;
use crate::stop::Stop;
use rp_base::{Files, Memory, Names, Printed, Status, Text, add_ascii};
use rp_decl::{Decl, Perm};
use rp_interact::{Interaction, Reason};
use rp_words::May;
use std::alloc::Global;

/// What the program says where it is to tell whether principals have a permission.
///
/// # Errors
/// `Refused` with what is said where a step refuses, `Failed` where a read failed, `Memory` where a growth or an
/// opening was refused memory.
pub fn answer_may<F: Files>(alloc: Global, command: &May, files: &mut F) -> Result<Answer, Stop>
    requires unread { F.begun files.old ≡ 0 }
    requires sound { F.faults files.old ≡ 0 }

    ensures told { OnAnswer result (λ a. IfSome (F.contents files.old)
        (λ of. ToldMay (may_view command.now) of a.text a.status.0)) }
    ensures status { OnAnswer result (λ a. IsCommandStatus a.status.0) }

    ensures begun { BeginsNamed (Some (may (may_view command.now))) (F.begun files.new) (F.last_path files.new) }
    ensures sound { OnAnswer result (λ _. F.faults files.new ≡ 0) }
    ensures failed { IsErrOf result Stop.Failed → 0 < F.faults files.new }
    ensures cause { IsErrOf result Stop.Failed
        → FailsAtNamed (Some (may (may_view command.now))) (F.contents files.old) (F.begun files.new)
        (F.last_path files.new) }
    ensures memory { IsErrOf result Stop.Memory → F.faults files.new ≡ 0 }
{
    let mut names = Names::new(alloc, files.seed())?;
    let decl = read_declarations(alloc, &command.declarations, &mut names, files)?;
    let interaction = find_principals(alloc, &decl, command.ids.as_slice())?;
    let permission = find_permission(alloc, decl.permissions(), &command.permission)?;
    Ok(reasons(alloc, &decl, &interaction, permission)?)
}

/// The permission with an id, where it is declared.
///
/// # Errors
/// `Refused` where it is not, `Memory` where a growth was refused.
fn find_permission(alloc: Global, permissions: &[Text], id: &Text) -> Result<Perm, Stop>
    ensures place { IfOk result (λ p. position (same_text id.now) permissions.now ≡ Some p.0) }
    ensures refused { IfErr result (OnRefusal (RefusesUndeclared permissions.now id.now)) }
    ensures unfailed { IfErr result (λ stop. stop ≢ Stop.Failed) }
{
    match permission_place(permissions, id) {
        Some(place) => Ok(Perm(place)),
        None => Err(Stop::Refused(Answer::labelled(alloc, "permission: ", id, 3)?)),
    }
}

/// The place of the permission with an id.
fn permission_place(permissions: &[Text], id: &Text) -> Option<usize>
    ensures { result ≡ position (same_text id.now) permissions.now }
{
    permissions.iter().position(|permission| *id == *permission)
}

/// A line for each principal, and whether they have the permission together.
fn reasons(
    alloc: Global,
    decl: &Decl,
    interaction: &Interaction,
    permission: Perm,
) -> Result<Answer, Memory>
    requires declared { permission.0 < length decl.now.permissions }
    requires answers { (names : List (List ℕ)) → AreInOrder (declarations_view names decl.now)
        → AnswersAs names decl.now interaction.now }
    ensures text { IfOk result (λ a. (names : List (List ℕ)) → AreInOrder (declarations_view names decl.now)
        → a.text ≡ may_text (declarations_view names decl.now) interaction.now.ids
        (perm_text decl.now.permissions permission)) }
    ensures status { IfOk result (λ a. (names : List (List ℕ)) → AreInOrder (declarations_view names decl.now)
        → a.status.0 ≡ may_status (declarations_view names decl.now) interaction.now.ids
        (perm_text decl.now.permissions permission)) }
    ensures few { IfOk result (λ a. a.status.0 ≤ 1) }
{
    let mut text = Printed::new(alloc);
    let ids = interaction.ids();
    let mut place = 0;
    'ids: while place < ids.len() {
        let reason = interaction.why(place, permission);
        add_reason(&mut text, decl, &ids[place], reason)?;
        place += 1;
    }
    if interaction.has(permission) {
        add_ascii(&mut text, "may yes\n")?;
        Ok(Answer {
            text,
            status: Status(0),
        })
    } else {
        add_ascii(&mut text, "may no\n")?;
        Ok(Answer {
            text,
            status: Status(1),
        })
    }
}

/// Appends whether a principal has a permission, and why.
fn add_reason(text: &mut Printed, decl: &Decl, id: &Text, reason: Reason) -> Result<(), Memory>
    ensures { OnOk result (text.new ≡ text.old ++ reason_line id.now (reason_view decl.now reason)) }
{
    text.add(id.as_str())?;
    add_yes_or_no(text, reason.is_yes())?;
    add_words(text, decl, reason)?;
    add_ascii(text, "\n")
}

/// Appends `yes` or `no` between blanks.
fn add_yes_or_no(text: &mut Printed, yes: bool) -> Result<(), Memory>
    ensures { OnOk result (text.new ≡ text.old ++ (codes " " ++ yes_or_no yes ++ codes " ")) }
{
    if yes {
        add_ascii(text, " yes ")
    } else {
        add_ascii(text, " no ")
    }
}

/// Appends the rule that decides.
fn add_words(text: &mut Printed, decl: &Decl, reason: Reason) -> Result<(), Memory>
    ensures { OnOk result (text.new ≡ text.old ++ reason_words (reason_view decl.now reason)) }
{
    match reason {
        Reason::Public => add_ascii(text, "public"),
        Reason::Own(_) => add_ascii(text, "principal"),
        Reason::Role(role) => add_role(text, decl, role),
        Reason::Group(group, _) => add_group(text, decl, group),
        Reason::GroupRole(group, role) => {
            add_group(text, decl, group)?;
            add_ascii(text, " ")?;
            add_role(text, decl, role)
        }
        Reason::Nothing => add_ascii(text, "none"),
    }
}

fn add_role(text: &mut Printed, decl: &Decl, role: usize) -> Result<(), Memory>
    ensures { OnOk result (text.new ≡ text.old ++ (codes "role " ++ text_at (role_ids decl.now) role)) }
{
    add_ascii(text, "role ")?;
    match decl.roles().get(role) {
        Some(role) => text.add(role.id.as_str()),
        None => Ok(()),
    }
}

fn add_group(text: &mut Printed, decl: &Decl, group: usize) -> Result<(), Memory>
    ensures { OnOk result (text.new ≡ text.old ++ (codes "group " ++ text_at (group_ids decl.now) group)) }
{
    add_ascii(text, "group ")?;
    match decl.groups().get(group) {
        Some(group) => text.add(group.id.as_str()),
        None => Ok(()),
    }
}
