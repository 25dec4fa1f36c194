// A reader's reply as C gets it.
ghost use Rattle.std.specs.Prelude.{◌≡◌};
ghost use Rattle.guided.specs.Calls.{reply};
ghost use Rattle.ffi.specs.Replies.{reply_to};

use crate::types::{ChromaReader, ChromaReply, from_reader, number_of};
use guided::Reader;
use laws::Refusal;

// Inner: a call's answer and the state afterwards in C's form; `handed` comes back, bit for bit, where the call was refused.
#[tactic(auto, unfolding(crate::specs::Replies::reply_to))]
pub fn reply_to(handed: ChromaReader, answer: Result<(), Refusal>, reader: Reader) -> ChromaReply
    ensures { result ≡ reply_to handed (reply answer reader) }
{
    if answer.is_err() {
        return ChromaReply {
            refusal: number_of(answer),
            reader: handed,
        };
    }
    ChromaReply {
        refusal: 0,
        reader: from_reader(reader),
    }
}
