// The words that begin statements.
ghost use Rattle.std.specs.Prelude.{◌≡◌};
ghost use Rattle.foundation.specs.Lists.{same_list};
ghost use Rattle.lexing.specs.Words.{word_of, table_word, question_word};

// The sizes of a contract.
#[derive(Clone, Copy, Debug, PartialEq, Eq)]
pub enum Size {
    Symbols,
    InputStates,
    OutputStates,
}

// The tables of a contract.
#[derive(Clone, Copy, Debug, PartialEq, Eq)]
pub enum Table {
    Counts,
    InputRows,
    InputMarks,
    OutputTable,
    OutputMarks,
    Nodes,
    Rules,
}

// The word that begins a statement.
#[derive(Clone, Copy, Debug, PartialEq, Eq)]
pub enum Word {
    Case,
    Size(Size),
    Table(Table),
    Rows,
    Admit,
    Judge,
    Check,
    Run,
    Write,
    Show,
    Unknown,
}

// Whether two stretches hold the same bytes.
#[tactic(auto, using(crate::proofs::Sameness::same_pointwise))]
pub fn same(a: &[u8], b: &[u8]) -> bool
    ensures { result ≡ same_list a.now b.now }
{
    a == b
}

// A word that asks a question.
#[tactic(auto, unfolding(crate::specs::Words::question_word))]
fn question_word(token: &[u8]) -> Word
    ensures { result ≡ question_word token.now }
{
    if same(token, b"admit") {
        return Word::Admit;
    }
    if same(token, b"judge") {
        return Word::Judge;
    }
    if same(token, b"check") {
        return Word::Check;
    }
    if same(token, b"run") {
        return Word::Run;
    }
    if same(token, b"write") {
        return Word::Write;
    }
    if same(token, b"show") {
        return Word::Show;
    }
    Word::Unknown
}

// A word that sets a table, or asks a question.
#[tactic(auto, unfolding(crate::specs::Words::table_word))]
fn table_word(token: &[u8]) -> Word
    ensures { result ≡ table_word token.now }
{
    if same(token, b"counts") {
        return Word::Table(Table::Counts);
    }
    if same(token, b"input-rows") {
        return Word::Table(Table::InputRows);
    }
    if same(token, b"input-marks") {
        return Word::Table(Table::InputMarks);
    }
    if same(token, b"output-table") {
        return Word::Table(Table::OutputTable);
    }
    if same(token, b"output-marks") {
        return Word::Table(Table::OutputMarks);
    }
    if same(token, b"nodes") {
        return Word::Table(Table::Nodes);
    }
    if same(token, b"rules") {
        return Word::Table(Table::Rules);
    }
    question_word(token)
}

// The word that a token is.
#[tactic(auto, unfolding(crate::specs::Words::word_of))]
pub fn read_word(token: &[u8]) -> Word
    ensures { result ≡ word_of token.now }
{
    if same(token, b"case") {
        return Word::Case;
    }
    if same(token, b"symbols") {
        return Word::Size(Size::Symbols);
    }
    if same(token, b"input-states") {
        return Word::Size(Size::InputStates);
    }
    if same(token, b"output-states") {
        return Word::Size(Size::OutputStates);
    }
    if same(token, b"rows") {
        return Word::Rows;
    }
    table_word(token)
}
