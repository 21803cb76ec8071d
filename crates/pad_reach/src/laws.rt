//! A law of steps, as the contract of a function that does nothing.

ghost use Rattle.std.specs.Prelude.{ℕ, ◌<◌, List, length};
ghost use Rattle.pad_reach.specs.Chain.{Joint, HasChain};
ghost use Rattle.pad_reach.specs.Reaches.{Step, Reaches};

/// Steps that reach lead from each point to an anchored one: a chain leads from it.
pub fn reach_leads()
    ensures { (web : List Joint) (steps : List Step) (p : ℕ) → Reaches web steps → p < length web → HasChain web p }
{}
