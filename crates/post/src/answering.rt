// A post and the lines that come to it. A line that is refused leaves the post as it was. Assumes nothing.
ghost use Rattle.std.specs.Prelude.{◌≡◌, ◌≢◌, slice_index};
ghost use Rattle.lines.specs.UnitLines.{line_in};
ghost use Rattle.commands.specs.PostUnit.{post_what};
ghost use Rattle.post.specs.Replies.{brought_by, obeyed, reply_to};

use crate::reply::Reply;
use commands::{PostOrder, read_post_order};
use frames::{Fault, Settings, read_frame};
use lines::Unit;
use posts::{Post, Told};

// A frame.
fn hear(post: Post, settings: &Settings, unit: Unit<'_>) -> Result<(Post, Reply), Fault>
    requires { slice_index unit.bytes.now 0 ≡ 1 }
    ensures { result ≡ brought_by settings.now post (line_in unit.entry) }
{
    unit.ending
        .settle(read_frame(unit.bytes, settings, post.place()))?;
    let (post, act) = post.step(Told::Frame(unit.bytes), settings);
    Ok((post, Reply::Acted(act)))
}

// An order to the post that was read.
fn obey_order(post: Post, settings: &Settings, order: PostOrder) -> (Post, Reply)
    ensures { result ≡ obeyed settings.now post (post_what order) }
{
    // by the steps themselves: `Post::step` would tell them apart once more, which takes more instructions
    let (post, act) = match order {
        PostOrder::Tick => post.tick(settings),
        PostOrder::ButtonDown => post.press(true),
        PostOrder::ButtonUp => post.press(false),
        PostOrder::Show => return (post, Reply::Shown(post.counts())),
    };
    (post, Reply::Acted(act))
}

// An order to the post.
fn obey(post: Post, settings: &Settings, unit: Unit<'_>) -> Result<(Post, Reply), Fault>
    requires { slice_index unit.bytes.now 0 ≢ 1 }
    ensures { result ≡ brought_by settings.now post (line_in unit.entry) }
{
    let order = unit
        .ending
        .settle(read_post_order(unit.bytes, post.place()))?;
    Ok(obey_order(post, settings, order))
}

// The post after a line with this unit on it, and what it answers, or why it refuses the line.
pub fn reply(post: Post, settings: &Settings, unit: Unit<'_>) -> (Post, Result<Reply, Fault>)
    ensures { result ≡ reply_to settings.now post (line_in unit.entry) }
{
    let brought = match unit.bytes {
        [1, ..] => hear(post, settings, unit),
        _ => obey(post, settings, unit),
    };
    match brought {
        Ok((next, answer)) => (next, Ok(answer)),
        Err(fault) => (post, Err(fault)),
    }
}
