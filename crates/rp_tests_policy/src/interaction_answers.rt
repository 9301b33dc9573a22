//! What principals of declaration files have, and why.

use crate::declaration_answers::read;
use rp_base::{Memory, Names, Text};
use rp_decl::{Decl, DeclFault, Perm};
use rp_interact::{Interaction, Reason, WhoFault};
use rp_tests_cases::{Question, is_told, number, part, seed};
use std::alloc::{AllocError, Global};
use std::test::Fail;

fn declared(alloc: Global, file: &str) -> Result<Decl, DeclFault> {
    let mut names = Names::new(alloc, seed())?;
    read(alloc, file.as_bytes(), &mut names)
}

fn permission_named(decl: &Decl, id: &str) -> Perm {
    match decl.permissions().iter().position(|held| held.is(id)) {
        Some(place) => Perm(place),
        None => Perm(0),
    }
}

/// The interaction of the ids, which are joined by `+`.
fn interaction_of(alloc: Global, decl: &Decl, who: &str) -> Result<Interaction, WhoFault> {
    let mut ids = Vec::new(alloc);
    for id in who.split('+') {
        ids.push(Text::new(alloc, id)?)?;
    }
    Interaction::new(alloc, decl, &ids)
}

fn role_id(decl: &Decl, place: usize) -> &str {
    match decl.roles().get(place) {
        Some(role) => role.id.as_str(),
        None => "?",
    }
}

fn group_id(decl: &Decl, place: usize) -> &str {
    match decl.groups().get(place) {
        Some(group) => group.id.as_str(),
        None => "?",
    }
}

fn reason_text(alloc: Global, decl: &Decl, reason: Reason) -> Result<String, AllocError> {
    let answer = if reason.is_yes() { "yes" } else { "no" };
    match reason {
        Reason::Public => format!(in alloc; "{answer} public"),
        Reason::Own(_) => format!(in alloc; "{answer} principal"),
        Reason::Role(role) => {
            let role = role_id(decl, role);
            format!(in alloc; "{answer} role {role}")
        }
        Reason::Group(group, _) => {
            let group = group_id(decl, group);
            format!(in alloc; "{answer} group {group}")
        }
        Reason::GroupRole(group, role) => {
            let group = group_id(decl, group);
            let role = role_id(decl, role);
            format!(in alloc; "{answer} group {group} role {role}")
        }
        Reason::Nothing => format!(in alloc; "{answer} none"),
    }
}

/// Why the principal has the permission or not, or the fault.
fn why_in(alloc: Global, file: &str, id: &str, permission: &str) -> Result<String, Memory> {
    match declared(alloc, file) {
        Ok(decl) => why_over(alloc, &decl, id, permission),
        Err(_) => Ok(String::from_str(alloc, "refused")?),
    }
}

fn why_over(alloc: Global, decl: &Decl, id: &str, permission: &str) -> Result<String, Memory> {
    let permission = permission_named(decl, permission);
    match interaction_of(alloc, decl, id) {
        Ok(interaction) => Ok(first_why(alloc, decl, &interaction, permission)?),
        Err(_) => Ok(String::from_str(alloc, "unknown")?),
    }
}

fn first_why(
    alloc: Global,
    decl: &Decl,
    interaction: &Interaction,
    permission: Perm,
) -> Result<String, AllocError> {
    if interaction.ids().is_empty() {
        return String::from_str(alloc, "nobody");
    }
    reason_text(alloc, decl, interaction.why(0, permission))
}

/// The rules for `zope.View` that apply to a principal, by the bits of a number, in their order: its own
/// `deny` and `allow`, a role, and the `deny`, the `allow` and a role of a group.
const RULES: [(&str, &str); 6] = [
    ("deny = ['zope.View']", "no principal"),
    ("allow = ['zope.View']", "yes principal"),
    ("roles = ['viewer']", "yes role viewer"),
    ("'deniers'", "no group deniers"),
    ("'allowers'", "yes group allowers"),
    ("'viewers'", "yes group viewers role viewer"),
];

const GROUPS: &str = "version = 2
permissions = ['zope.View']
role.viewer.permissions = ['zope.View']
group.deniers.deny = ['zope.View']
group.allowers.allow = ['zope.View']
group.viewers.roles = ['viewer']
";

/// The groups of the rules with these bits, in one of their orders.
fn groups_of(
    alloc: Global,
    bits: usize,
    first: usize,
    is_backwards: bool,
) -> Result<String, AllocError> {
    let mut groups = String::new(alloc);
    for k in 0..3usize {
        let step = if is_backwards { 2 - k } else { k };
        let place = 3 + (first % 3 + step) % 3;
        if bits >> place & 1 == 1 {
            groups.push_str(RULES[place].0)?;
            groups.push_str(", ")?;
        }
    }
    Ok(groups)
}

/// A file with one principal, to whom the rules with these bits apply.
fn file_of(alloc: Global, bits: usize, groups: &str) -> Result<String, AllocError> {
    let mut file = String::from_str(alloc, GROUPS)?;
    file.push_str("[principal.bob]\n")?;
    for (i, (text, _)) in RULES.iter().enumerate() {
        if i < 3 && bits >> i & 1 == 1 {
            file.push_str(text)?;
            file.push_str("\n")?;
        }
    }
    file.push_str("groups = [")?;
    file.push_str(groups)?;
    file.push_str("]\n")?;
    Ok(file)
}

/// The answer of the first rule among those with these bits.
fn first_answer(bits: usize) -> &'static str {
    for (i, (_, answer)) in RULES.iter().enumerate() {
        if bits >> i & 1 == 1 {
            return answer;
        }
    }
    "no none"
}

/// Asks whether the first of the rules with these bits decides, the groups in one of their orders.
fn is_decided_in_order(
    alloc: Global,
    bits: usize,
    first: usize,
    is_backwards: bool,
) -> Result<(), Fail> {
    let groups = groups_of(alloc, bits, first, is_backwards)?;
    let file = file_of(alloc, bits, groups.as_str())?;
    let reason = why_in(alloc, file.as_str(), "bob", "zope.View")?;
    is_told(alloc, file.as_str(), reason.as_str(), first_answer(bits))
}

/// Asks whether the first rule decides, of all choices of rules in all orders.
pub fn are_decided_in_order(alloc: Global) -> Result<(), Fail> {
    for case in 0..384usize {
        is_decided_in_order(alloc, case / 6, case / 2 % 3, case % 2 == 1)?;
    }
    Ok(())
}

const LEAST: &str = "version = 2
permissions = ['zope.View', 'zope.Edit', 'zope.Manage', 'zope.Close']
role.z.permissions = ['zope.View', 'zope.Edit']
role.m.permissions = ['zope.Edit', 'zope.View']
role.a.permissions = ['zope.Manage']
group.y = { roles = ['z', 'm'], allow = ['zope.Manage'], deny = ['zope.Close'] }
group.x = { roles = ['m', 'z'], allow = ['zope.Manage'], deny = ['zope.Close'] }
group.w.roles = ['a']
principal.roles = { roles = ['z', 'a', 'm', 'z'] }
principal.groups = { groups = ['y', 'w', 'x', 'y'], deny = ['zope.Public'] }
principal.nobody = {}
";

/// Why the principal of the file above that is the first part has the permission that is the second, or not.
pub struct Why;

impl Question for Why {
    fn answer(&self, alloc: Global, parts: &[String]) -> Result<String, Fail> {
        Ok(why_in(alloc, LEAST, part(parts, 0), part(parts, 1))?)
    }
}

/// Whether the permission is decided so.
fn is_decided(interaction: &mut Interaction, permission: Perm, has: bool) -> bool {
    interaction.decide(permission) == has
}

/// Whether `decide` answers twice as `has` does.
fn is_decided_twice(interaction: &mut Interaction, permission: Perm, has: bool) -> bool {
    is_decided(interaction, permission, has) && is_decided(interaction, permission, has)
}

/// Whether they have the permission, asked twice in each way, how many they are, and how many answers are kept.
fn asked(
    alloc: Global,
    interaction: &mut Interaction,
    permission: Perm,
) -> Result<String, AllocError> {
    let has = interaction.has(permission);
    let is_same = is_decided_twice(interaction, permission, has);
    let count = interaction.ids().len();
    let kept = interaction.kept();
    format!(in alloc; "{has} {is_same} {count} {kept}")
}

/// Whether all that the first part names have the permission that is the second, or the first id that is unknown.
pub struct Have;

impl Question for Have {
    fn answer(&self, alloc: Global, parts: &[String]) -> Result<String, Fail> {
        Ok(answers_of(alloc, part(parts, 0), part(parts, 1))?)
    }
}

fn answers_of(alloc: Global, who: &str, permission: &str) -> Result<String, Memory> {
    match declared(alloc, LEAST) {
        Ok(decl) => answers_over(alloc, &decl, who, permission),
        Err(_) => Ok(String::from_str(alloc, "refused")?),
    }
}

fn answers_over(alloc: Global, decl: &Decl, who: &str, permission: &str) -> Result<String, Memory> {
    let permission = permission_named(decl, permission);
    match interaction_of(alloc, decl, who) {
        Ok(mut interaction) => Ok(asked(alloc, &mut interaction, permission)?),
        Err(WhoFault::Unknown(id)) => Ok(String::from_str(alloc, id.as_str())?),
        Err(WhoFault::Memory) => Err(Memory),
    }
}

/// A file with many permissions, of which a principal has every third.
fn many(alloc: Global, count: usize) -> Result<String, AllocError> {
    let mut ids = String::new(alloc);
    let mut held = String::new(alloc);
    for i in 0..count {
        ids.push_str(format!(in alloc; "'p{i}', ")?.as_str())?;
        if i % 3 == 0 {
            held.push_str(format!(in alloc; "'p{i}', ")?.as_str())?;
        }
    }
    let ids = ids.as_str();
    let held = held.as_str();
    format!(in alloc; "version = 1\npermissions = [{ids}]\nprincipal.bob.allow = [{held}]\n")
}

/// How many of the permissions, of which there are as many as the first part says, are decided as `has` does, each
/// asked twice, and how many answers are kept in the end.
pub struct Decided;

impl Question for Decided {
    fn answer(&self, alloc: Global, parts: &[String]) -> Result<String, Fail> {
        Ok(decisions(alloc, number(parts, 0) as usize)?)
    }
}

fn decisions(alloc: Global, count: usize) -> Result<String, Memory> {
    let file = many(alloc, count)?;
    match declared(alloc, file.as_str()) {
        Ok(decl) => decisions_over(alloc, &decl),
        Err(_) => Ok(String::from_str(alloc, "refused")?),
    }
}

fn decisions_over(alloc: Global, decl: &Decl) -> Result<String, Memory> {
    match interaction_of(alloc, decl, "bob") {
        Ok(mut interaction) => {
            let same = decided_twice(&mut interaction, decl.permissions().len());
            let kept = interaction.kept();
            Ok(format!(in alloc; "{same} decided, {kept} kept")?)
        }
        Err(_) => Ok(String::from_str(alloc, "unknown")?),
    }
}

/// How many of so many permissions are decided twice as `has` does.
fn decided_twice(interaction: &mut Interaction, count: usize) -> usize {
    let mut same: usize = 0;
    for i in 0..count {
        let has = interaction.has(Perm(i));
        if is_decided_twice(interaction, Perm(i), has) {
            same = same.saturating_add(1);
        }
    }
    same
}
