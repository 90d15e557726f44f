ghost use Rattle.std.specs.Prelude.{◌≡◌, IfOk};
ghost use Rattle.msl_program.specs.Need.{need};
ghost use Rattle.msl_demo_laws.specs.Demo.{demo_text};
ghost use Rattle.msl_demo_laws.specs.Script.{demo_script};
ghost use Rattle.msl_demo.specs.declared.script.TheConstants.{DEMO_NEED};

use msl_base::NoMemory;
use msl_script::{Script, ScriptFault, read_script};
use std::alloc::Global;

/// How many processes the demonstration's script needs: `need_is` says so.
pub const DEMO_NEED: u32 = 4;

/// The demonstration's script needs just as many.
pub fn need_is()
    ensures { need demo_script ≡ DEMO_NEED }
{}

// The script that the demonstration's records are run through.
pub fn demo_script(alloc: Global) -> Result<Script, NoMemory>
    ensures { IfOk result (λ s. s ≡ demo_script) }
{
    match read_script(alloc, script_text()) {
        Ok(script) => Ok(script),
        Err(ScriptFault::NoMemory) => Err(NoMemory),
        Err(ScriptFault::At(_, _)) => unreachable!(),
    }
}

fn script_text() -> &'static [u8]
    ensures { result.now ≡ demo_text }
{
    b"muesli 1;
fun mix(a, b) = [a + b, a * b, a - b];
data tot {
  a = array 2;
  s = scan sum a;
  give s;
}
main = pipe { farm 2 { atomic mix }; data tot on 1 };
"
}
