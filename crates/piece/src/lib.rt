// Reads pieces: checks their bytes and lays their terms out by place, one run of codes a place.
#![tactic(auto)]

ghost use Rattle.std.specs.Prelude.{◌≡◌, suc, ◌+◌, ◌*◌, ◌≤◌, ◌<◌, length, replicate};
ghost use Rattle.places.specs.Numbering.{stride};
ghost use Rattle.records.specs.Reading.{map_reading};
ghost use Rattle.piece.specs.views.TermRecord.{term_head};
ghost use Rattle.piece.specs.ReadPiece.{read_arity, read_prefix, read_piece};
ghost use Rattle.piece.specs.views.LaidOut.{took_cells, term_cells, terms_cells, empty_cells, UsedTo, lay_out};
ghost use Rattle.piece.specs.views.Emptied.{TellsBelow, ArgumentTells, Emptied};
ghost use Rattle.piece.specs.views.LaidOut.{arity_read, prefix_read, prefix_bytes, piece_read};
ghost use Rattle.piece.specs.CheckPiece.{piece_check_values, piece_values};

use codes::{NEVER, UNKNOWN, compound_code, gauged_code, number_code, run_of, symbol_code};
use records::{Refusal, wide};

// For each of the 680 places the run of codes (codes::low_of, codes::high_of) of what may stand there, 0 where the piece lacks it.
pub type Cells = [u64; 680];

// A whole record of a term.
#[derive(Clone, Copy)]
pub enum TermRecord {
    Unknown,
    Symbol(u16),
    Number(u16),
    Compound(u16, u8),
    Span(u16, u16),
    Never,
    Gauged(u8, u16),
}

// The piece that the input begins with: its arity and its bytes.
#[derive(Clone, Copy)]
pub struct Prefix {
    pub arity: u8,
    pub bytes: usize,
}

// The record of a term that the input begins with.
pub fn term_head(s: &[u8]) -> Result<TermRecord, Refusal>
    ensures { result ≡ term_head s.now }
{
    let [kind, fields @ ..] = s else {
        return Err(Refusal::NotATerm);
    };
    match (*kind, fields) {
        (0x30, _) => Ok(TermRecord::Unknown),
        (0x31, [a, b, ..]) => Ok(TermRecord::Symbol(wide(*a, *b))),
        (0x32, [a, b, ..]) => Ok(TermRecord::Number(wide(*a, *b))),
        (0x33, [a, b, arity, ..]) => Ok(TermRecord::Compound(wide(*a, *b), *arity)),
        (0x34, [a, b, c, d, ..]) => Ok(TermRecord::Span(wide(*a, *b), wide(*c, *d))),
        (0x35, _) => Ok(TermRecord::Never),
        (0x36, [gauge, a, b, ..]) => Ok(TermRecord::Gauged(*gauge, wide(*a, *b))),
        (0x31..=0x34 | 0x36, _) | (0..=0x2f | 0x37..=255, _) => Err(Refusal::NotATerm),
    }
}

// Reads the term that the input begins with, which stands at place p with so many levels below it, into its cells, and says how
// many bytes it takes.
#[cycle(term_terms)]
fn term(s: &[u8], below: usize, p: usize, cells: &mut Cells) -> Result<usize, Refusal>
    requires { (below < 4) × (p + stride (suc below) ≤ 680) }
    ensures { took_cells cells.new result ≡ term_cells below p cells.old s.now }
{
    let record = term_head(s)?;
    match record {
        TermRecord::Unknown => {
            cells[p] = UNKNOWN;
            Ok(1)
        }
        TermRecord::Symbol(id) => {
            let code = symbol_code(id);
            cells[p] = run_of(code, code);
            Ok(3)
        }
        TermRecord::Number(value) => {
            let code = number_code(value);
            cells[p] = run_of(code, code);
            Ok(3)
        }
        TermRecord::Compound(id, arity) => {
            if below == 0 {
                return Err(Refusal::TermTooDeep);
            }
            if arity < 1 || 4 < arity {
                return Err(Refusal::TermArity);
            }
            let code = compound_code(id, arity);
            cells[p] = run_of(code, code);
            let bytes = terms(&s[4..], below - 1, arity as usize, p + 1, cells)?;
            Ok(4 + bytes)
        }
        TermRecord::Span(low, high) => {
            if high < low {
                return Err(Refusal::SpanLowAboveHigh);
            }
            cells[p] = run_of(number_code(low), number_code(high));
            Ok(5)
        }
        TermRecord::Never => {
            cells[p] = NEVER;
            Ok(1)
        }
        TermRecord::Gauged(gauge, value) => {
            let code = gauged_code(gauge, value);
            cells[p] = run_of(code, code);
            Ok(4)
        }
    }
}

// Reads the n terms that the input begins with, of which the first stands at place p, into their cells, and says how many bytes
// they take.
#[cycle(term_terms)]
fn terms(s: &[u8], below: usize, n: usize, p: usize, cells: &mut Cells) -> Result<usize, Refusal>
    requires { (below < 4) × (p + n * stride (suc below) ≤ 680) }
    ensures { took_cells cells.new result ≡ terms_cells below n p cells.old s.now }
{
    let step = places::step(3 - below);
    let mut at: usize = 0;
    for i in 0..n {
        at += term(&s[at..], below, p + i * step, cells)?;
    }
    Ok(at)
}

// The arity in the record, of 2 bytes, that a piece begins with.
fn piece_head(s: &[u8]) -> Result<u8, Refusal>
    ensures { arity_read result ≡ read_arity s.now }
{
    let &[0x11, arity, ..] = s else {
        return Err(Refusal::NotAPiece);
    };
    if arity < 1 || 8 < arity {
        return Err(Refusal::PieceArity);
    }
    Ok(arity)
}

// Empties the 21 cells of an argument's child at place p: its own alone where the cell behind says that nothing stands below it.
// Ruled out: a cell left that is used; a cell of the next child emptied too.
fn empty_child(cells: &mut Cells, p: usize)
    requires { (p + 21 ≤ 680) × (length cells.old ≡ 680) × TellsBelow 21 p cells.old }
    ensures { Emptied p (p + 21) cells.old cells.new }
{
    cells[p] = 0;
    if cells[p + 1] == 0 {
        return;
    }
    cells[p + 1..p + 21].fill(0);
}

// Empties the 85 cells of an argument: its own alone where the cell behind says that nothing stands below it, else its children's.
// Ruled out: the last child's cells left; a cell of the argument before emptied too.
fn empty_argument(cells: &mut Cells, argument: usize)
    requires { (argument + 85 ≤ 680) × (length cells.old ≡ 680) × ArgumentTells argument cells.old }
    ensures { Emptied argument (argument + 85) cells.old cells.new }
{
    cells[argument] = 0;
    if cells[argument + 1] == 0 {
        return;
    }
    for k in 0usize..4 {
        empty_child(cells, argument + 1 + 21 * k);
    }
}

// Empties the cells that a piece used, whose arguments stand before a place.
// Ruled out: the cells of the last argument left; those of each argument's children left.
fn empty(cells: &mut Cells, used: usize)
    requires { (used ≤ 680) × UsedTo used cells.old }
    ensures { cells.new ≡ empty_cells }
{
    for a in 0..used.div_ceil(85) {
        empty_argument(cells, 85 * a);
    }
}

// Reads the piece that the input begins with into cells of which those before a place may be used. Bytes may follow it.
pub fn read_prefix(s: &[u8], cells: &mut Cells, used: usize) -> Result<Prefix, Refusal>
    requires { (used ≤ 680) × UsedTo used cells.old }
    ensures { (prefix_read cells.new result ≡ map_reading lay_out (read_prefix s.now))
        × (prefix_bytes result ≤ length s.now) }
{
    let arity = piece_head(s)?;
    empty(cells, used);
    let bytes = terms(&s[2..], 3, arity as usize, 0, cells)?;
    Ok(Prefix {
        arity,
        bytes: 2 + bytes,
    })
}

// Reads a piece that is the whole input into empty cells, and says its arity.
pub fn read_piece(s: &[u8], cells: &mut Cells) -> Result<u8, Refusal>
    requires { cells.old ≡ replicate 680 0 }
    ensures { piece_read (length s.now) cells.new result ≡ map_reading lay_out (read_piece s.now) }
{
    let prefix = read_prefix(s, cells, 0)?;
    if prefix.bytes != s.len() {
        return Err(Refusal::BytesAfterPiece);
    }
    Ok(prefix.arity)
}

// Checks a piece, and says its arity.
pub fn check_piece(s: &[u8]) -> Result<u8, Refusal>
    ensures { piece_check_values result ≡ piece_values (read_piece s.now) }
{
    let mut cells = [0; 680];
    read_piece(s, &mut cells)
}
