//! Laws of scripts: what their code is like, and what follows for the worlds that they are run in.
#![tactic(auto)]

ghost use Rattle.script_laws.specs.Assembled.{AreNested};
ghost use Rattle.script_laws.specs.Fed.{AreFed, TellRoom};
ghost use Rattle.script_laws.specs.Idle.{ComeBackIdle, NoneStayHeld};

/// In the code of each script the blocks and groups stand within each other, each ended before what is around it. Does
/// nothing.
pub fn nested()
    ensures { AreNested }
{}

/// Each thread of nested code tells its room truly: at each begin, and as it makes its transaction irrevocable, how many calls
/// come at most until its outermost block ends. So in a world of a script's threads no actor that found no memory has an irrevocable
/// attempt. Does nothing.
pub fn fed()
    ensures tells { TellRoom }
    ensures fed { AreFed }
{}

/// A thread of nested code that runs on a thread of its own gives its pass back, however its run ends: it closes its blocks
/// as it finishes, it gives up only where no transaction is irrevocable, and an irrevocable one wants no memory. So no thread
/// of such a program ends while it holds the clock. Does nothing.
pub fn idle()
    ensures back { ComeBackIdle }
    ensures none_held { NoneStayHeld }
{}
