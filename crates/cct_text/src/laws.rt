//! One text is one transcript: laws over the definitions of `cct_model_lines` and of this crate
//! alone, each the clause of a function without parameters, whose body is empty.
//!
//! A crate above cites their lemmas, `fields_back`, `line_is_one` and `text_is_one` of
//! `proofs/Whole.antt`.
ghost use Rattle.std.specs.Prelude.{◌≡◌, ◌∷◌, ◌++◌, [], List, codes};
ghost use Rattle.std.specs.List.{All, join_with_byte};
ghost use Rattle.cct_model_lines.specs.declared.entry.Entry.{Entry};
ghost use Rattle.cct_model_lines.specs.declared.entry.Entry.TheVariants.{Taken};
ghost use Rattle.cct_model_lines.specs.declared.command.Command.{Command};
ghost use Rattle.cct_model_lines.specs.declared.command.Step.TheVariants as step;
ghost use Rattle.cct_model_lines.specs.Grammar.{step_line};
ghost use Rattle.cct_model_lines.specs.Script.{IsCommand};
ghost use Rattle.cct_model_lines.specs.Text.{fields_of, line_of, text};
ghost use Rattle.cct_text.specs.Reading.{parts_at, read_fields, read_text};
ghost use Rattle.cct_text.specs.ScriptLine.{IsTyped, command_line};
ghost use Rattle.cct_text.specs.Written.{IsWritten};

/// The fields of a line, cut at its spaces, give the entry.
pub fn fields_tell_the_entry()
    ensures { (e : Entry) → IsWritten e →
        read_fields (parts_at 32 (join_with_byte 32 (fields_of e))) ≡ Some e }
{}

/// Two entries with one line are the same entry.
pub fn one_line_is_one_entry()
    ensures { (first second : Entry) → IsWritten first → IsWritten second → line_of first ≡ line_of second
        → first ≡ second }
{}

/// The lines of a text, cut at its line feeds, give the transcript; so two transcripts with one
/// text are the same.
pub fn one_text_is_one_transcript()
    ensures read { (entries : List Entry) → All IsWritten entries → read_text (text entries)
        ≡ entries }
    ensures one { (first second : List Entry) → All IsWritten first → All IsWritten second
        → text first ≡ text second → first ≡ second }
{}

/// The transcript shows a command that was taken by the script's line of it, after `ok `: read as a
/// line of a script, what is there gives just that command, whatever command a line can spell.
pub fn a_commands_line_is_read_back()
    ensures taken { (c : Command) → line_of (Taken c) ≡ codes "ok " ++ command_line c ++ 10 ∷ [] }
    ensures back { (c : Command) → IsTyped c → IsCommand c → step_line (command_line c)
        ≡ Ok (step.Command c) }
{}
