//! Whether a line of a story could wait for ever.
ghost use Rattle.std.specs.Prelude.{◌≡◌, ◌≤◌, ◌<◌, ◌+◌, ℕ, drop, length, take};
ghost use Rattle.story_check.specs.declared.limits.TheConstants.{MAX_FLUSHES};
ghost use Rattle.story_check.specs.Stories.{flushes, cap, untils_met, stuck};
ghost use Rattle.story_check.specs.Passes.{IsPast, IsAhead};

use crate::{ClientLine, PageLine, Story};

/// How far the page may go: the lines that it may do, and the flushes among them.
#[derive(Clone, Copy)]
struct Reach {
    lines: usize,
    flushes: u32,
}

/// Goes on over lines that do not wait for more than `taken`.
fn advance(page: &[PageLine], from: Reach, taken: u32) -> Reach
    requires few { flushes page.now ≤ MAX_FLUSHES + 1 }
    requires from { IsPast page.now from taken }
    ensures past { IsPast page.now result taken }
    ensures ahead { IsAhead page.now result taken }
{
    let mut lines = from.lines;
    let mut flushes = from.flushes;
    while lines < page.len() {
        match &page[lines] {
            PageLine::Change(_) => {}
            PageLine::Flush => flushes += 1,
            PageLine::Until(k) => {
                if taken < k.number() {
                    break;
                }
            }
        }
        lines += 1;
    }
    Reach { lines, flushes }
}

/// Whether a line of a story could wait for ever. It reads each line once.
pub fn stuck(story: &Story) -> bool
    ensures { result ≡ stuck story.now }
{
    let page = story.page();
    let all = story.flushes();
    let mut taken = 0;
    let mut reach = advance(
        page,
        Reach {
            lines: 0,
            flushes: 0,
        },
        taken,
    );
    for line in story.client() {
        if let ClientLine::Await(a) = line {
            let a = a.number();
            if a > reach.flushes {
                return true;
            }
            if a > taken {
                taken = a;
                reach = advance(page, reach, taken);
            }
        }
    }
    reach.lines < page.len()
}
