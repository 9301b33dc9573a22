//! Why a principal has a permission or not.

ghost use Rattle.std.specs.Prelude.{◌≡◌};
ghost use Rattle.rp_interact.specs.Interacting.{is_yes};
ghost use Rattle.rp_interact.specs.ReasonsSteps.{first_of, goes_before, is_lower, is_nothing, rank};

/// The rule by which a principal has a permission or not. Roles and groups are told by their places in
/// the declarations.
#[derive(Clone, Copy, Debug, PartialEq, Eq)]
pub enum Reason {
    /// Everybody has it.
    Public,
    /// The principal's own `allow`, or `deny`.
    Own(bool),
    /// The least of the principal's own roles that has it.
    Role(usize),
    /// The least of the principal's groups that allows it, or denies it.
    Group(usize, bool),
    /// The least of the principal's groups with a role that has it, and the least such role of the group.
    GroupRole(usize, usize),
    /// No rule applies.
    Nothing,
}

impl Reason {
    /// Whether the principal has the permission.
    pub fn is_yes(self) -> bool
        ensures { result ≡ is_yes self }
    {
        match self {
            Reason::Public | Reason::Role(_) | Reason::GroupRole(_, _) => true,
            Reason::Own(allowed) | Reason::Group(_, allowed) => allowed,
            Reason::Nothing => false,
        }
    }

    /// Whether no rule applies.
    pub(crate) fn is_nothing(self) -> bool
        ensures { result ≡ is_nothing self }
    {
        match self {
            Reason::Nothing => true,
            Reason::Public
            | Reason::Own(_)
            | Reason::Role(_)
            | Reason::Group(_, _)
            | Reason::GroupRole(_, _) => false,
        }
    }

    /// The first of two reasons: the one of the earlier rule, or of the lower places.
    pub(crate) fn first_of(self, other: Reason) -> Reason
        ensures { result ≡ first_of self other }
    {
        if other.goes_before(self) { other } else { self }
    }

    fn goes_before(self, other: Reason) -> bool
        ensures { result ≡ goes_before self other }
    {
        is_lower(self.rank(), other.rank())
    }

    /// The rule's place in the order of rules, and the places that it names.
    fn rank(self) -> (usize, usize, usize)
        ensures { result ≡ rank self }
    {
        match self {
            Reason::Public => (0, 0, 0),
            Reason::Own(false) => (1, 0, 0),
            Reason::Own(true) => (2, 0, 0),
            Reason::Role(role) => (3, role, 0),
            Reason::Group(group, false) => (4, group, 0),
            Reason::Group(group, true) => (5, group, 0),
            Reason::GroupRole(group, role) => (6, group, role),
            Reason::Nothing => (7, 0, 0),
        }
    }
}

/// Whether three numbers come before three others, the first of them first.
fn is_lower(rank: (usize, usize, usize), other: (usize, usize, usize)) -> bool
    ensures { result ≡ is_lower rank other }
{
    rank.0 < other.0
        || rank.0 == other.0 && (rank.1 < other.1 || rank.1 == other.1 && rank.2 < other.2)
}
