//! What the definitions of reading mean, for every line.

ghost use Rattle.std.specs.Prelude.{◌≡◌, ◌↔◌, ◌<◌, ℕ, List, Ok, Err, length};
ghost use Rattle.media_types.specs.declared.decision.Decision.{Decision};
ghost use Rattle.media_types.specs.declared.new_file.NewFile.{NewFile};
ghost use Rattle.media_types.specs.declared.pair_page.PairPage.{PairPage};
ghost use Rattle.media_base.specs.declared.command.Command.{Command};
ghost use Rattle.media_base.specs.declared.command.Command.TheVariants as commands;
ghost use Rattle.media_base.specs.declared.command.Query.TheVariants as queries;
ghost use Rattle.media_base.specs.declared.change.Change.TheVariants as changes;
ghost use Rattle.media_base.specs.declared.refusal.FieldName.{FieldName};
ghost use Rattle.media_base.specs.declared.refusal.Refusal.{Refusal};
ghost use Rattle.media_base.specs.declared.refusal.Refusal.TheVariants as refusals;
ghost use Rattle.command_text.specs.Forms.{Test, refusal_of};
ghost use Rattle.command_text.specs.Reading.{line_command};
ghost use Rattle.command_text.specs.declared.request.TheConstants.{MAX_LINE};
ghost use Rattle.command_text.specs.Spelling.{IsNoJson, IsOfReading, SpellsCommand, SpellsFault, SpellsUnfit};
ghost use Rattle.command_text.specs.Worked.{SpellsDecide, SpellsImport, SpellsPairs};

/// A line is read as a command exactly where it spells the command.
pub fn spelling_laws()
    ensures { (line : List ℕ) (command : Command)
        → (line_command line ≡ Ok command) ↔ SpellsCommand line command }
{}

/// A line that isn't too long is refused as no JSON exactly where it has no reading, and by a field
/// exactly where that is the first, in the command's order, that hasn't its form. Where all have their
/// forms it is refused by a test exactly where that is the first, in the command's order, that isn't
/// passed. Reading gives no other refusal.
pub fn refusal_laws()
    ensures not_json { (line : List ℕ)
        → (line_command line ≡ Err refusals.NotJson) ↔ IsNoJson line }
    ensures not_a_request { (line : List ℕ) (field : FieldName)
        → (line_command line ≡ Err (refusals.NotARequest field)) ↔ SpellsFault line field }
    ensures unfit { (line : List ℕ) (test : Test)
        → (line_command line ≡ Err (refusal_of test)) ↔ SpellsUnfit line (refusal_of test) }
    ensures no_other { (line : List ℕ) (why : Refusal)
        → line_command line ≡ Err why → IsOfReading why }
{}

/// A line is refused as too long exactly where it has more bytes than a line may have.
pub fn long_line_laws()
    ensures too_long { (line : List ℕ)
        → (line_command line ≡ Err refusals.LineTooLong) ↔ (MAX_LINE < length line) }
{}

/// What the rows of three commands say, in full: a row is said once, so these stand against a slip in it.
pub fn worked_readings()
    ensures import { (line : List ℕ) (file : NewFile)
        → (line_command line ≡ Ok (commands.Do (changes.File file))) ↔ SpellsImport line file }
    ensures decide { (line : List ℕ) (decision : Decision)
        → (line_command line ≡ Ok (commands.Do (changes.Decision decision))) ↔ SpellsDecide line decision }
    ensures pairs { (line : List ℕ) (page : PairPage)
        → (line_command line ≡ Ok (commands.Ask (queries.Pairs page))) ↔ SpellsPairs line page }
{}
