// What `help` prints, one line for each statement of a script.
ghost use Rattle.printing.specs.Appending.{Appends};
ghost use Rattle.lines.specs.Help.{sizes_help, tables_help, questions_help, buffers_help, help};

use printing::pages::Page;

// The label and the sizes of a contract.
fn append_sizes(page: &mut Page)
    ensures { Appends page.old page.new sizes_help }
{
    page.append(b"case NAME: the label of the answers that follow\n");
    page.append(b"symbols N: how many symbols there are\n");
    page.append(b"input-states N: how many input states there are\n");
    page.append(b"output-states N: how many output states there are\n");
}

// The tables of a contract.
fn append_tables(page: &mut Page)
    ensures { Appends page.old page.new tables_help }
{
    page.append(b"counts N ..: how many parameters each procedure has\n");
    page.append(b"input-rows N ..: state, symbol, left state, right state\n");
    page.append(b"input-marks N ..: 1 for each accepted input state, otherwise 0\n");
    page.append(
        b"output-table N ..: the state of symbol 0, then by symbol, left state and right state\n",
    );
    page.append(b"output-marks N ..: 1 for each accepted output state, otherwise 0\n");
    page.append(b"nodes N ..: tag, name, child, first, second\n");
    page.append(b"rules N ..: procedure, symbol, node\n");
}

// Admission, judging, checking and running.
fn append_questions(page: &mut Page)
    ensures { Appends page.old page.new questions_help }
{
    page.append(b"admit: admit the contract\n");
    page.append(b"judge N ..: judge the document that the numbers begin with\n");
    page.append(b"check L: check the contract, listing at most L kinds\n");
    page.append(
        b"run R N ..: run the transformation on the document that the numbers begin with, with room for R rows\n",
    );
}

// Rows, and what is in the buffers.
fn append_buffers(page: &mut Page)
    ensures { Appends page.old page.new buffers_help }
{
    page.append(b"rows N ..: the row table that write reads\n");
    page.append(b"write J B: write out the tree of row J, with room for B numbers\n");
    page.append(b"show: the buffers as the last check, run or judge left them\n");
}

// All of it.
pub fn append_help(page: &mut Page)
    ensures { Appends page.old page.new help }
{
    append_sizes(page);
    append_tables(page);
    append_questions(page);
    append_buffers(page);
}
