//! The steps of a run before its sessions.

ghost use Rattle.std.specs.Prelude.{◌≡◌, ◌<◌, ◌≤◌, IfErr, IfOk, IfSome, IsErrOf, OnOk, Some, length};
ghost use Rattle.rp_run.specs.Headline.{BeginsNamed, FailsAtNamed};
ghost use Rattle.rp_run.specs.Refusals.{OnRefusal};
ghost use Rattle.rp_run.specs.SetUp.{IsReadyWith, IsSetUp};
ghost use Rattle.rp_run.specs.Steps.{IsCommandStatus};
ghost use Rattle.rp_run.specs.Told.{ToldRefusedRun};
ghost use Rattle.rp_words.specs.Command.{run};
ghost use Rattle.rp_words.specs.View.{run_view};

use crate::admitting::find_all_principals;
use crate::declaring::read_declarations;
use crate::keying::hold_each_once;
use crate::loading::load_world;
use crate::scripts::{compile_scripts, read_scripts};
use crate::stop::Stop;
use rp_base::{Files, Names};
use rp_compile::Compiled;
use rp_interact::Interaction;
use rp_session::Loaded;
use rp_words::Run;
use std::alloc::Global;

/// What a run has before its sessions: the world of the declarations with their module, among whose names are the words
/// of the scripts, and of each session its principals and its script.
#[derive(Drop)]
pub struct Ready {
    pub loaded: Loaded,
    pub whos: Vec<Interaction>,
    pub scripts: Vec<Compiled>,
}

/// Reads the files of a run and loads its declarations, where no step refuses.
///
/// # Errors
/// `Refused` with what is said at the first step that refuses, `Failed` where a read failed, `Memory` where a growth or
/// an opening was refused memory.
pub fn make_ready<F: Files>(alloc: Global, command: &Run, files: &mut F) -> Result<Ready, Stop>
    requires unread { F.begun files.old ≡ 0 }
    requires sound { F.faults files.old ≡ 0 }
    requires few { length command.now.pairs.items ≤ 16 }

    ensures ready { IfOk result (λ x. IfSome (F.contents files.old)
        (λ of. IsReadyWith (run_view command.now) of x)) }
    ensures set_up { IfOk result (IsSetUp (run_view command.now)) }
    ensures refused { IfErr result (OnRefusal (λ a. IfSome (F.contents files.old)
        (λ of. ToldRefusedRun (run_view command.now) of a.text a.status.0))) }
    ensures status { IfErr result (OnRefusal (λ a. IsCommandStatus a.status.0)) }

    ensures begun { BeginsNamed (Some (run (run_view command.now))) (F.begun files.new) (F.last_path files.new) }
    ensures sound { OnOk result (F.faults files.new ≡ 0) }
    ensures kept { IfErr result (OnRefusal (λ _. F.faults files.new ≡ 0)) }
    ensures failed { IsErrOf result Stop.Failed → 0 < F.faults files.new }
    ensures cause { IsErrOf result Stop.Failed
        → FailsAtNamed (Some (run (run_view command.now))) (F.contents files.old) (F.begun files.new)
        (F.last_path files.new) }
    ensures memory { IsErrOf result Stop.Memory → F.faults files.new ≡ 0 }
{
    let mut names = Names::new(alloc, files.seed())?;
    let decl = read_declarations(alloc, &command.declarations, &mut names, files)?;
    let loaded = load_world(alloc, decl, names, command.cells)?;
    let Loaded {
        mut world,
        module,
        layouts,
    } = loaded;
    let pairs = command.pairs.as_slice();
    let whos = find_all_principals(alloc, &world.decl, pairs)?;
    let texts = read_scripts(alloc, pairs, files)?;
    let scripts = compile_scripts(alloc, texts.as_slice(), &mut world.names)?;
    hold_each_once(&world.names);
    Ok(Ready {
        loaded: Loaded {
            world,
            module,
            layouts,
        },
        whos,
        scripts,
    })
}
