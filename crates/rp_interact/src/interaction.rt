//! The principals of a session, and the answers that are kept.

ghost use Rattle.std.specs.Prelude.{◌≡◌, ◌⊎◌, ◌≤◌, ◌<◌, ℕ, IfOk, IfErr, IfSome, IsSome, IsNone, List, None, Some, []};
ghost use Rattle.std.specs.Prelude.{find, length, option_copied, position};
ghost use Rattle.std.specs.List.{list_all};
ghost use Rattle.std.specs.Map.{lookup};
ghost use Rattle.rp_base.specs.Same.{same_text};
ghost use Rattle.rp_decl.specs.Document.{public as zope_public};
ghost use Rattle.rp_decl.specs.InOrder.{AreInOrder};
ghost use Rattle.rp_decl.specs.View.{declarations_view};
ghost use Rattle.rp_interact.specs.Answers.{AnswersAs, IsRefusedFor, why_at};
ghost use Rattle.rp_interact.specs.Interacting.{has_in, is_everybody, is_yes, reason_at};
ghost use Rattle.rp_interact.specs.Kept.{IsKeptOrNot, is_perm, latest, most_kept, used};
ghost use Rattle.rp_interact.specs.Why.{first_unknown};
ghost use Rattle.lru.specs.LruCache.{lru_cache, promoted, put_entries};

use crate::reason::Reason;
use crate::reasons::Reasons;
use crate::who_fault::WhoFault;
use lru::LruCache;
use rp_base::Text;
use rp_decl::{Decl, Perm, PrincipalDecl, is_public};
use std::alloc::{AllocError, Global};
use std::marker::Model;
use std::num::NonZeroUsize;

/// How many answers are kept.
const MOST_KEPT: usize = 64;

/// The principals that take part in a session, with why they have each permission or not, and the answers
/// that were given last (zope.security: interactions and participations).
pub struct Interaction {
    ids: Vec<Text>,
    /// The place of `zope.Public`.
    everybody: Option<usize>,
    reasons: Vec<Reasons>,
    kept: LruCache<Perm, bool>,
}

// By hand, so that crates that drop one do not prove again how its parts are dropped.
impl Drop for Interaction {
    fn drop(self) {
        let Interaction {
            ids: _,
            everybody: _,
            reasons: _,
            kept: _,
        } = self;
    }
}

impl Model for Interaction {
    ghost use Rattle.rp_interact.specs.Interacting.{Interacting};
    ghost use Rattle.rp_interact.specs.Kept.{IsSound};

    ghost Value = { Interacting };

    ghost view = { λ i. record {
      ids = i.ids.items;
      everybody = i.everybody;
      reasons = i.reasons.items;
      kept = i.kept.entries;
    } };

    ghost invariant = { λ i. IsSound (record {
      ids = i.ids.items;
      everybody = i.everybody;
      reasons = i.reasons.items;
      kept = i.kept.entries;
    }) i.kept.cap };
}

impl Interaction {
    /// The interaction of the principals with these ids, in their order, repeats kept. It answers as the
    /// declarations say.
    ///
    /// # Errors
    /// `Unknown` with the first id that names no principal, and `Memory` where a growth was refused.
    pub fn new(alloc: Global, decl: &Decl, who: &[Text]) -> Result<Interaction, WhoFault>
        ensures ids { IfOk result (λ i. i.ids ≡ who.now) }
        ensures kept { IfOk result (λ i. i.kept ≡ []) }
        ensures answers { IfOk result (λ i. (names : List (List ℕ)) → AreInOrder (declarations_view names decl.now)
            → AnswersAs names decl.now i) }
        ensures known { IfOk result (λ _. (names : List (List ℕ))
            → first_unknown (declarations_view names decl.now) who.now ≡ None) }
        ensures refused { IfErr result (IsRefusedFor decl.now who.now) }
    {
        let permissions = decl.permissions();
        let roles = decl.roles();
        let groups = decl.groups();
        let principals = decl.principals();
        let mut ids = Vec::with_capacity(alloc, who.len())?;
        let mut reasons = Vec::with_capacity(alloc, who.len())?;
        for id in who {
            let Some(principal) = principal_named(principals, id) else {
                return Err(WhoFault::Unknown(id.copy()?));
            };
            ids.push(id.copy()?)?;
            reasons.push(Reasons::new(alloc, permissions.len(), roles, groups, principal)?)?;
        }
        let kept = no_answers(alloc)?;
        let everybody = public_place(permissions);
        Ok(Interaction {
            ids,
            everybody,
            reasons,
            kept,
        })
    }

    /// The ids of the principals.
    pub fn ids(&self) -> &[Text]
        ensures { result.now ≡ self.now.ids }
    {
        self.ids.as_slice()
    }

    /// Whether each of the principals has the permission. Everybody has `zope.Public`.
    pub fn has(&self, permission: Perm) -> bool
        ensures { result ≡ has_in self.now permission }
    {
        self.is_everybody(permission) || all_have(&self.reasons, permission)
    }

    /// Why the principal at a place has the permission or not.
    pub fn why(&self, i: usize, permission: Perm) -> Reason
        requires { i < length self.now.ids }
        ensures { why_at self.now i permission ≡ Some result }
    {
        let reasons = &self.reasons[i];
        if self.is_everybody(permission) {
            Reason::Public
        } else {
            reasons.reason(permission)
        }
    }

    /// The answer that was given last, where it was on this permission. `decide` would then give it too, and change
    /// nothing.
    #[inline(always)]
    pub fn last_answer(&self, permission: Perm) -> Option<bool>
        ensures answer { IfSome result (λ answer. answer ≡ has_in self.now permission) }
        ensures same { IsSome result → self.now ≡ used self.now permission }
        ensures kept { IsSome result → IsSome (lookup (is_perm permission) self.now.kept) }
    {
        latest(&self.kept, permission)
    }

    /// What `has` answers, from what is kept where it is there. The answer is then the latest one kept,
    /// in the place of the oldest of 64, unless there is no memory for it.
    pub fn decide(&mut self, permission: Perm) -> bool
        ensures answer { result ≡ has_in self.old permission }
        ensures held { IsSome (lookup (is_perm permission) self.old.kept) → self.new ≡ used self.old permission }
        ensures other { IsNone (lookup (is_perm permission) self.old.kept) → IsKeptOrNot self.old permission self.new }
    {
        if let Some(answer) = latest(&self.kept, permission) {
            return answer;
        }
        if let Some(answer) = recall(&mut self.kept, permission) {
            return answer;
        }
        let answer = self.has(permission);
        keep(&mut self.kept, permission, answer);
        answer
    }

    /// How many answers are kept, at most 64.
    pub fn kept(&self) -> usize
        ensures count { result ≡ length self.now.kept }
        ensures few { result ≤ 64 }
    {
        self.kept.len()
    }

    fn is_everybody(&self, permission: Perm) -> bool
        ensures { result ≡ is_everybody self.now.everybody permission }
    {
        match self.everybody {
            Some(place) => permission.0 == place,
            None => false,
        }
    }
}

/// The principal with an id.
fn principal_named<'d>(principals: &'d [PrincipalDecl], id: &Text) -> Option<&'d PrincipalDecl>
    ensures { option_copied result ≡ find (λ p. same_text id.now p.id) principals.now }
{
    principals.iter().find(|principal| *id == principal.id)
}

/// Room for the answers that are kept.
fn no_answers(alloc: Global) -> Result<LruCache<Perm, bool>, AllocError>
    ensures { IfOk result (λ c. c ≡ lru_cache [] most_kept) }
{
    match NonZeroUsize::new(MOST_KEPT) {
        Some(most) => LruCache::new(alloc, most),
        None => unreachable!(),
    }
}

/// The answer that is kept for a permission, where it is the latest one used.
#[inline(always)]
fn latest(kept: &LruCache<Perm, bool>, permission: Perm) -> Option<bool>
    ensures { result ≡ latest kept.now.entries permission }
{
    let (of, answer) = kept.peek_mru()?;
    if permission == *of {
        Some(*answer)
    } else {
        None
    }
}

/// The answer that is kept for a permission, which becomes the latest one used.
fn recall(kept: &mut LruCache<Perm, bool>, permission: Perm) -> Option<bool>
    ensures found { result ≡ lookup (is_perm permission) kept.old.entries }
    ensures latest { kept.new ≡ lru_cache (promoted (is_perm permission) kept.old.entries) kept.old.cap }
{
    kept.get(&permission).copied()
}

/// Keeps an answer, where there is memory for it.
fn keep(kept: &mut LruCache<Perm, bool>, permission: Perm, answer: bool)
    ensures { (kept.new ≡ lru_cache (put_entries is_perm kept.old permission answer) kept.old.cap) ⊎ (kept.new
        ≡ kept.old) }
{
    let _refused = kept.put(permission, answer);
}

/// The place of the permission that everybody has.
fn public_place(permissions: &[Text]) -> Option<usize>
    ensures { result ≡ position (λ t. same_text t zope_public) permissions.now }
{
    permissions.iter().position(|id| is_public(id))
}

/// Whether each of them has the permission, where not everybody has it.
fn all_have(reasons: &[Reasons], permission: Perm) -> bool
    ensures { result ≡ list_all (λ reasons. is_yes (reason_at reasons permission)) reasons.now }
{
    reasons
        .iter()
        .all(|reasons| reasons.reason(permission).is_yes())
}
