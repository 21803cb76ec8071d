//! Laws of readings. Each is the contract of a function that does nothing.

ghost use Rattle.std.specs.Prelude.{ℕ, List};
ghost use Rattle.book_files.specs.Grammar.{HasOneAnswer};
ghost use Rattle.book_files.specs.AuxRules.{aux_grammar};
ghost use Rattle.book_files.specs.NodeRules.{nodes_grammar};
ghost use Rattle.book_files.specs.NetRules.{nets_grammar};
ghost use Rattle.book_files.specs.WeightRules.{weights_grammar};
ghost use Rattle.book_files.specs.PlaceRules.{places_grammar};
ghost use Rattle.book_files.specs.RowRules.{rows_grammar};
ghost use Rattle.book_files.specs.ScheduleRules.{schedule_grammar};

/// Each text reads as records or has a first fault, never both, with one value.
pub fn one_answer()
    ensures aux { (text : List ℕ) → HasOneAnswer aux_grammar text }
    ensures nodes { (text : List ℕ) → HasOneAnswer nodes_grammar text }
    ensures nets { (text : List ℕ) → HasOneAnswer nets_grammar text }
    ensures wts { (text : List ℕ) → HasOneAnswer weights_grammar text }
    ensures pl { (text : List ℕ) → HasOneAnswer places_grammar text }
    ensures scl { (text : List ℕ) → HasOneAnswer rows_grammar text }
    ensures schedule { (text : List ℕ) → HasOneAnswer schedule_grammar text }
{}
