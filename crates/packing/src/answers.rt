// Plain answers, and walks of one piece and of many.
ghost use Rattle.std.specs.Prelude.{ℕ, ◌≤◌, ◌≡◌, List};
ghost use Rattle.walk_all.specs.WalkAll.{most_results};
ghost use Rattle.packing.specs.Packed.{Packs, plain_fields, walk_fields};
ghost use Rattle.packing.specs.PackedWalks.{walk_all_fields};
ghost use Rattle.packing.specs.views.Numbered.{plain_values, walked_values, walked_all_left};

use crate::{pack, refused};
use plain::Answer;
use walk::Walk;
use walk_all::WalkedAll;
use walk_all::result::{rule, word};

// The word and rule of a plain answer. Not the rule before the word, nor a word beside a refusal's number.
pub fn pack_plain(answered: Result<Answer, u8>) -> u64
    ensures { Packs result (plain_fields (plain_values answered)) }
{
    match answered {
        Ok(answer) => pack(0, word(answer), rule(answer), 0),
        Err(question) => refused(question),
    }
}

// Word, rule and edges of a walk. Not the edges before the rule, nor a word beside a refusal's number.
pub fn pack_walked(walked: Result<Walk, u8>) -> u64
    ensures { Packs result (walk_fields (walked_values walked)) }
{
    match walked {
        Ok(walk) => pack(0, word(walk.answer), rule(walk.answer), walk.edges),
        Err(question) => refused(question),
    }
}

// The wait list of a walk, 0 on a refusal. Not the edges, nor a test beside a refusal.
pub fn waits(walked: Result<Walk, u8>) -> u64
    ensures { result ≡ (walked_values walked).waits }
{
    match walked {
        Ok(walk) => walk.waits,
        Err(_) => 0,
    }
}

// The results written and the bytes taken by the walks of many pieces, whatever the buffer. Not the bytes before the results, nor a
// result beside a refusal's number.
pub fn pack_walked_all(walked: Result<WalkedAll, u8>) -> u64
    requires { (buffer : List ℕ) → (walked_all_left walked buffer).results ≤ most_results }
    ensures { (buffer : List ℕ) → Packs result (walk_all_fields (walked_all_left walked buffer)) }
{
    match walked {
        Ok(all) => 0x100 * (all.results as u64) + 0x1_0000_0000 * (all.bytes as u64),
        Err(question) => refused(question),
    }
}
