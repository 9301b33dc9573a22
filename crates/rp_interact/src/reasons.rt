//! Why a principal has each permission or not, from its grants.

ghost use Rattle.std.specs.Prelude.{◌≡◌, ◌<◌, ◌||◌, ℕ, All, IfOk, false, get_or, length, nat_eq, replicate};
ghost use Rattle.rp_decl.specs.Places.{IsGroupWithin, IsPrincipalWithin, IsRoleWithin};
ghost use Rattle.rp_interact.specs.Granted.{granted_of, reasons_of};
ghost use Rattle.rp_interact.specs.Interacting.{reason_at};
ghost use Rattle.rp_interact.specs.ReasonsSteps.{by_group, by_groups, by_role, by_roles, granting, has_place, lowered};
ghost use Rattle.rp_interact.specs.ReasonsSteps.{lowered_at, own_grants, own_roles, roles_by_group, roles_by_groups};
ghost use Rattle.rp_interact.specs.declared.reason.Reason.TheVariants.{Nothing};

use crate::reason::Reason;
use rp_base::Memory;
use rp_decl::{GroupDecl, Perm, PrincipalDecl, RoleDecl};
use std::alloc::Global;
use std::marker::Model;

/// For each place of permissions, or of roles, the first rule by which a principal has what is there or not. That
/// everybody has `zope.Public` does not matter here.
#[derive(Drop)]
pub struct Reasons {
    each: Vec<Reason>,
}

impl Model for Reasons {
    ghost use Rattle.std.specs.Prelude.{List};
    ghost use Rattle.rp_interact.specs.declared.reason.Reason.{Reason};

    ghost Value = { List Reason };

    ghost view = { λ r. r.each.items };
}

impl Reasons {
    /// The reasons of a principal for each of so many permissions. The list of each of its roles and groups is gone
    /// over once, however often it is named.
    ///
    /// # Errors
    /// `Memory` where a growth was refused.
    pub fn new(
        alloc: Global,
        permissions: usize,
        roles: &[RoleDecl],
        groups: &[GroupDecl],
        principal: &PrincipalDecl,
    ) -> Result<Reasons, Memory>
        requires roles { All (IsRoleWithin permissions) roles.now }
        requires groups { All (IsGroupWithin permissions (length roles.now)) groups.now }
        requires principal { IsPrincipalWithin permissions (length roles.now) (length groups.now) principal.now }
        ensures { IfOk result (λ r. r ≡ reasons_of permissions (granted_of roles.now groups.now principal.now)) }
    {
        let marks = marks(alloc, groups.len(), &principal.groups)?;
        let mut of_roles = Reasons::none(alloc, roles.len())?;
        of_roles.lower_roles_by_groups(&marks, groups);
        of_roles.lower_own_roles(&principal.roles);
        let mut reasons = Reasons::none(alloc, permissions)?;
        reasons.lower_own(principal);
        reasons.lower_by_groups(&marks, groups);
        reasons.lower_by_roles(&of_roles, roles);
        Ok(reasons)
    }

    /// The reason for a permission.
    pub fn reason(&self, permission: Perm) -> Reason
        ensures { result ≡ reason_at self.now permission }
    {
        self.at(permission.0)
    }

    /// No rule for each of so many places.
    fn none(alloc: Global, count: usize) -> Result<Reasons, Memory>
        ensures { IfOk result (λ r. r ≡ replicate count Nothing) }
    {
        let each = vec![in alloc; Reason::Nothing; count]?;
        Ok(Reasons { each })
    }

    fn at(&self, place: usize) -> Reason
        ensures { result ≡ get_or self.now place Nothing }
    {
        match self.each.get(place) {
            Some(reason) => *reason,
            None => Reason::Nothing,
        }
    }

    /// Keeps the first of the reason at a place and another.
    fn lower(&mut self, place: usize, reason: Reason)
        ensures { self.new ≡ lowered_at self.old place reason }
    {
        if place < self.each.len() {
            self.each[place] = self.each[place].first_of(reason);
        }
    }

    fn lower_all(&mut self, permissions: &[Perm], reason: Reason)
        ensures { self.new ≡ lowered (granting reason permissions.now) self.old }
    {
        for permission in permissions {
            self.lower(permission.0, reason);
        }
    }

    /// By the principal's own grants.
    fn lower_own(&mut self, principal: &PrincipalDecl)
        ensures { self.new ≡ lowered (own_grants principal.now) self.old }
    {
        self.lower_all(&principal.deny, Reason::Own(false));
        self.lower_all(&principal.allow, Reason::Own(true));
    }

    /// By the grants of the groups that are marked.
    fn lower_by_groups(&mut self, marks: &[bool], groups: &[GroupDecl])
        ensures { self.new ≡ lowered (by_groups marks.now 0 groups.now) self.old }
    {
        for (place, group) in groups.iter().enumerate() {
            self.lower_by_group(is_marked(marks, place), place, group);
        }
    }

    fn lower_by_group(&mut self, is_marked: bool, place: usize, group: &GroupDecl)
        ensures { self.new ≡ lowered (by_group is_marked place group.now) self.old }
    {
        if !is_marked {
            return;
        }
        self.lower_all(&group.deny, Reason::Group(place, false));
        self.lower_all(&group.allow, Reason::Group(place, true));
    }

    /// The principal's own roles, of the reasons of roles.
    fn lower_own_roles(&mut self, roles: &[usize])
        ensures { self.new ≡ lowered (own_roles roles.now) self.old }
    {
        for role in roles {
            self.lower(*role, Reason::Role(*role));
        }
    }

    /// The roles of the groups that are marked, of the reasons of roles.
    fn lower_roles_by_groups(&mut self, marks: &[bool], groups: &[GroupDecl])
        ensures { self.new ≡ lowered (roles_by_groups marks.now 0 groups.now) self.old }
    {
        for (place, group) in groups.iter().enumerate() {
            self.lower_roles_by_group(is_marked(marks, place), place, &group.roles);
        }
    }

    fn lower_roles_by_group(&mut self, is_marked: bool, place: usize, roles: &[usize])
        ensures { self.new ≡ lowered (roles_by_group is_marked place roles.now) self.old }
    {
        if !is_marked {
            return;
        }
        for role in roles {
            self.lower(*role, Reason::GroupRole(place, *role));
        }
    }

    /// By the permissions of the roles that have a reason.
    fn lower_by_roles(&mut self, of_roles: &Reasons, roles: &[RoleDecl])
        ensures { self.new ≡ lowered (by_roles of_roles.now 0 roles.now) self.old }
    {
        for (place, role) in roles.iter().enumerate() {
            self.lower_by_role(of_roles.at(place), &role.permissions);
        }
    }

    fn lower_by_role(&mut self, reason: Reason, permissions: &[Perm])
        ensures { self.new ≡ lowered (by_role reason permissions.now) self.old }
    {
        if reason.is_nothing() {
            return;
        }
        self.lower_all(permissions, reason);
    }
}

/// For each of so many places whether it is among some.
fn marks(alloc: Global, count: usize, places: &[usize]) -> Result<Vec<bool>, Memory>
    ensures { IfOk result (λ marks. (place : ℕ) → place < count → get_or marks.items place false
        ≡ has_place places.now place) }
{
    let mut marks = vec![in alloc; false; count]?;
    for place in places {
        mark(marks.as_mut_slice(), *place);
    }
    Ok(marks)
}

/// Marks a place, where it is among the marks.
fn mark(marks: &mut [bool], place: usize)
    ensures as_many { length marks.new ≡ length marks.old }
    ensures marked { (other : ℕ) → other < length marks.old → get_or marks.new other false
        ≡ (nat_eq place other || get_or marks.old other false) }
{
    if place < marks.len() {
        marks[place] = true;
    }
}

fn is_marked(marks: &[bool], place: usize) -> bool
    ensures { result ≡ get_or marks.now place false }
{
    match marks.get(place) {
        Some(mark) => *mark,
        None => false,
    }
}
