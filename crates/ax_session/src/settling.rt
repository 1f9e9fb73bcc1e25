//! What the ends of the two workers come to.
ghost use Rattle.std.specs.Prelude.{◌≡◌, ◌↔◌, ◌⊎◌, false, IfOk, IsErrOf, IsErr};
ghost use Rattle.story_check.specs.Stories.{stuck};
ghost use Rattle.ax_session.specs.Ends.{PageFacts, ClientFacts, IsPaired};

use ax_ask::Transcript;
use ax_base::NoMemory;
use ax_client::ClientEnd;
use ax_port::Final;
use page_thread::PageEnd;
use story_check::Story;

/// What the ends of the two workers come to: want of memory exactly where one of them is that, and else what the client was
/// told. It takes no memory.
///
/// A side that gave up a wait since the other was over comes with the other's want of memory, and never without.
#[tactic(auto, using(crate::proofs::Pairing::settled))]
pub fn settle(
    story: &Story,
    page: PageEnd,
    client: ClientEnd,
    last: &Final,
) -> Result<Transcript, NoMemory>
    requires free { stuck story.now ≡ false }
    requires page { PageFacts story.now page last.now.published last.now.taken }
    requires client { ClientFacts story.now client last.now.published last.now.taken }
    ensures memory { IsErr result ↔ ((page ≡ PageEnd.NoMemory) ⊎ (client ≡ ClientEnd.NoMemory)) }
    ensures told { IfOk result (λ w. client ≡ ClientEnd.Done w) }
    ensures paired { IsPaired page client }
{
    let _story = story;
    let _last = last;
    match client {
        ClientEnd::NoMemory => Err(NoMemory),
        ClientEnd::Done(told) => match page {
            PageEnd::Done => Ok(told),
            PageEnd::NoMemory => Err(NoMemory),
            PageEnd::Ended { .. } => unreachable!(),
        },
        ClientEnd::Ended { .. } => match page {
            PageEnd::NoMemory => Err(NoMemory),
            PageEnd::Done => unreachable!(),
            PageEnd::Ended { .. } => unreachable!(),
        },
    }
}
