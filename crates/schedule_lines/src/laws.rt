//! Laws of the format: functions with no code, whose contracts are proved of the definitions.
ghost use Rattle.std.specs.Prelude.{◌≡◌, ℕ, List};
ghost use Rattle.schedule_lines.specs.declared.command.Line.{Line};
ghost use Rattle.schedule_lines.specs.declared.equal_bytes.Run.{Run};
ghost use Rattle.schedule_lines.specs.Grammar.{Spells};
ghost use Rattle.schedule_lines.specs.Runs.{AreRuns};

/// No bytes spell two lines.
pub fn bytes_spell_one_line()
    ensures { (a b : Line) (bytes : List ℕ) → Spells a bytes → Spells b bytes → a ≡ b }
{}

/// No bytes have two lists of runs.
pub fn bytes_have_one_list_of_runs()
    ensures { (a b : List Run) (bytes : List ℕ) → AreRuns bytes a → AreRuns bytes b → a ≡ b }
{}
