//! Code that waits for the end of a call, or of the turns of a comprehension.

ghost use Rattle.std.specs.Prelude.{◌≡◌, []};

use rp_base::Oid;
use rp_engine::{Machine, Units};
use rp_frame::{Activation, Tasks, Values};
use std::mem::replace;

/// Code that waits for the end of a call that it made, or of the turns of a comprehension: where it runs, the tasks
/// that wait there for the value of that, and the values at hand there (Python Language Reference, Calls).
#[derive(Drop)]
pub struct Caller<'u> {
    pub units: &'u Units<'u>,
    pub frame: Activation,
    pub tasks: Tasks<'u>,
    pub values: Values,
    /// It called through a proxy, so it gets what is lent (zope.security, proxies).
    pub lent: bool,
    /// The instance that it made, and then called `__init__` of; it gets that, in place of None.
    pub made: Option<Oid>,
    /// The list or dict that the turns fill for which it waits; it gets that.
    pub filled: Option<Oid>,
}

/// Leaves its code, which then waits for the end of a call or of the turns of a comprehension, and goes on elsewhere,
/// with no task and no value at hand.
pub(crate) fn suspend<'u>(
    machine: &mut Machine<'u>,
    lent: bool,
    made: Option<Oid>,
    filled: Option<Oid>,
    frame: Activation,
) -> Caller<'u>
    ensures caller { result ≡ record {
      units = machine.old.units;
      frame = machine.old.frame;
      tasks = machine.old.tasks;
      values = machine.old.values;
      lent = lent;
      made = made;
      filled = filled;
    } }
    ensures left { machine.new ≡ record machine.old { frame = frame; tasks = []; values = [] } }
{
    Caller {
        units: machine.units,
        frame: replace(&mut machine.frame, frame),
        tasks: replace(&mut machine.tasks, Tasks::new(machine.alloc)),
        values: replace(&mut machine.values, Values::new(machine.alloc)),
        lent,
        made,
        filled,
    }
}

/// Goes on in code that waited.
pub(crate) fn take_over<'u>(machine: &mut Machine<'u>, caller: Caller<'u>)
    ensures { machine.new ≡ record machine.old {
      units = caller.entry.units;
      frame = caller.entry.frame;
      tasks = caller.entry.tasks;
      values = caller.entry.values;
    } }
{
    let Caller {
        units,
        frame,
        tasks,
        values,
        ..
    } = caller;
    machine.units = units;
    let _frame = replace(&mut machine.frame, frame);
    let _tasks = replace(&mut machine.tasks, tasks);
    let _values = replace(&mut machine.values, values);
}
