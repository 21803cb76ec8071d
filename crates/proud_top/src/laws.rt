//! What the laws of the readers, of the join, of the network, of the levels and of the rows say together.

ghost use Rattle.std.specs.Prelude.{◌≡◌, ℕ, List};
ghost use Rattle.book_files.specs.Grammar.{HasOneAnswer};
ghost use Rattle.book_files.specs.AuxRules.{aux_grammar};
ghost use Rattle.book_files.specs.NodeRules.{nodes_grammar};
ghost use Rattle.book_files.specs.NetRules.{nets_grammar};
ghost use Rattle.book_files.specs.WeightRules.{weights_grammar};
ghost use Rattle.book_files.specs.PlaceRules.{places_grammar};
ghost use Rattle.book_files.specs.RowRules.{rows_grammar};
ghost use Rattle.book_files.specs.ScheduleRules.{schedule_grammar};
ghost use Rattle.book_design.specs.Records.{Records};
ghost use Rattle.book_design.specs.Values.{DesignValue};
ghost use Rattle.book_design.specs.Answers.{HasOneJoin};
ghost use Rattle.net_model.specs.Values.{NetworkValue};
ghost use Rattle.net_model.specs.Answers.{HasOneNetwork};
ghost use Rattle.level_run.specs.declared.level.Level.{Level};
ghost use Rattle.level_run.specs.declared.rounds.Rounds.{Rounds};
ghost use Rattle.level_run.specs.Levels.{IsLevels, IsGap};
ghost use Rattle.row_space.specs.Values.{SegmentsValue};
ghost use Rattle.row_legal.specs.Cells.{CellsValue};
ghost use Rattle.row_legal.specs.OneAnswer.{HasOneAnswerAtMost};

use book_design::one_join;
use book_files::one_answer;
use level_run::{gap_is_one, levels_are_one};
use net_model::one_network;
use row_legal::one_answer as one_legalisation;

/// A text of each kind has one answer, the files together have one, and so have the nets of a design; a network has at most one
/// list of rounds, and rounds have one gap; and the greedy rule ends in one way at most.
pub(crate) fn laws()
    ensures aux { (text : List ℕ) → HasOneAnswer aux_grammar text }
    ensures nodes { (text : List ℕ) → HasOneAnswer nodes_grammar text }
    ensures nets { (text : List ℕ) → HasOneAnswer nets_grammar text }
    ensures wts { (text : List ℕ) → HasOneAnswer weights_grammar text }
    ensures pl { (text : List ℕ) → HasOneAnswer places_grammar text }
    ensures scl { (text : List ℕ) → HasOneAnswer rows_grammar text }
    ensures schedule { (text : List ℕ) → HasOneAnswer schedule_grammar text }
    ensures join { (files : Records) → HasOneJoin files }
    ensures network { (design : DesignValue) → HasOneNetwork design }
    ensures levels { (network : NetworkValue) (rounds : Rounds) (a b : List Level) → IsLevels network rounds a → IsLevels network rounds b → a ≡ b }
    ensures gap { (levels : List Level) (a b : ℕ) → IsGap levels a → IsGap levels b → a ≡ b }
    ensures greedy { (rows : SegmentsValue) (cells : CellsValue) → HasOneAnswerAtMost rows cells }
{
    one_answer();
    one_join();
    one_network();
    levels_are_one();
    gap_is_one();
    one_legalisation();
}
