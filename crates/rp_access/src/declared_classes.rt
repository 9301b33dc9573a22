//! The declared classes, as `class` statements find them.
#![tactic(auto, using(rp_store::proofs::CallerLemmas::goes_on))]

ghost use Rattle.std.specs.Prelude.{◌≡◌, ◌+◌, ◌<◌, IfSome, chars, length, option_map, position};
ghost use Rattle.rp_base.specs.Names.{word_of};
ghost use Rattle.rp_base.specs.Same.{same_text};
ghost use Rattle.rp_decl.specs.View.{declarations_view};
ghost use Rattle.rp_meaning.specs.Classes.{declared_at, declared_place};
ghost use Rattle.rp_meaning.specs.Frame.{Frame};
ghost use Rattle.rp_proxy.specs.Faithful.{IsFaithful};
ghost use Rattle.rp_store.specs.Heap.{IsHeld, Names as IsAt};
ghost use Rattle.rp_store.specs.Parts.{IsClass};

use crate::global_names::{is_held, is_word_of};
use crate::standing::class_there;
use rp_base::{Name, Names, Oid, Side};
use rp_decl::ClassDecl;
use rp_proxy::World;

/// The declared class that a `class` statement of a name gives methods, by code of a side and a code block: that of the
/// name, for the module's own statements, which stand in no function; None for all other code, and where no class
/// stands at its place. The declared classes stand behind the scope of the exposed values.
pub fn declared_class(world: &World, side: Side, block: usize, name: Name) -> Option<Oid>
    requires { IsFaithful world.now }
    ensures place { (frame : Frame) → frame.side ≡ side → frame.block ≡ block
        → result ≡ declared_at frame world.now.store.heap (word_of world.now.names name)
        (declarations_view world.now.names world.now.decl).classes }
    ensures class { IfSome result (IsAt world.now.store.heap IsClass) }
    ensures held { IfSome result (IsHeld world.now.store.heap) }
    ensures trusted { IfSome result (λ at. side.0 ≡ 0) }
{
    match declared_place(world, side, block, name) {
        Some(at) => class_there(&world.store, at),
        None => None,
    }
}

/// Its place.
fn declared_place(world: &World, side: Side, block: usize, name: Name) -> Option<Oid>
    requires { IsFaithful world.now }
    ensures place { (frame : Frame) → frame.side ≡ side → frame.block ≡ block
        → result ≡ declared_place frame (word_of world.now.names name)
        (declarations_view world.now.names world.now.decl).classes }
    ensures trusted { IfSome result (λ at. side.0 ≡ 0) }
{
    if side.0 != 0 {
        return None;
    }
    if block != 0 {
        return None;
    }
    class_among(world, name)
}

/// The place in the store of the class of that name among the declared ones.
fn class_among(world: &World, name: Name) -> Option<Oid>
    requires { IsFaithful world.now }
    ensures { result ≡ option_map (λ i. record { 0 = 1 + i })
        (position (λ class. same_text (word_of world.now.names name) (word_of world.now.names class.name))
        world.now.decl.classes) }
{
    match place_among(world, name) {
        Some(place) => Some(behind_exposed(world.decl.classes(), place)),
        None => None,
    }
}

/// The place of the word of a name among the declared classes: that of the name, as each word has one name. A name that
/// is not held has no word, and its place is that of the empty one.
fn place_among(world: &World, name: Name) -> Option<usize>
    requires { IsFaithful world.now }
    ensures { result ≡ position
        (λ class. same_text (word_of world.now.names name) (word_of world.now.names class.name))
        world.now.decl.classes }
{
    if is_held(&world.names, name) {
        return world.decl.class_place(name);
    }
    place_in(&world.names, world.decl.classes(), "")
}

/// The place of the class of a word.
fn place_in(names: &Names, classes: &[ClassDecl], word: &str) -> Option<usize>
    ensures { result
        ≡ position (λ class. same_text (chars word.now) (word_of names.now class.name)) classes.now }
{
    classes
        .iter()
        .position(|class| is_word_of(names, class.name, word))
}

/// The place in the store of one of the declared classes.
fn behind_exposed(classes: &[ClassDecl], place: usize) -> Oid
    requires { place < length classes.now }
    ensures { result ≡ record { 0 = 1 + place } }
{
    let _count = classes.len();
    Oid(place + 1)
}
