// The record that a sheet begins with: questions 1 to 3.
ghost use Rattle.std.specs.Prelude.{◌≡◌};
ghost use Rattle.sheet.specs.ReadSheet.{read_header};
ghost use Rattle.sheet.specs.views.HeaderRead.{header_read};

use crate::Header;
use records::Refusal;

// "Question 3 then reads 64".
const MOST_RULES: u8 = 64;

// The record that a sheet begins with; its rules begin behind its 3 bytes. Arity 9 is refused by 2 and 65 rules by 3,
// and no arity or count is made up.
#[tactic(auto, unfolding(crate::specs::ReadSheet::read_header))]
pub fn read_header(s: &[u8]) -> Result<Header, Refusal>
    ensures { header_read result ≡ read_header s.now }
{
    let &[0x10, arity, rules, ..] = s else {
        return Err(Refusal::NotASheet);
    };
    if arity < 1 || 8 < arity {
        return Err(Refusal::SheetArity);
    }
    if MOST_RULES < rules {
        return Err(Refusal::TooManyRules);
    }
    Ok(Header { arity, rules })
}
