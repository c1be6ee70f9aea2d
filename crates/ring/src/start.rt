// The numbers of all members at the beginning, and who may move then: before there is a stage, since the slices may not fit. Assumes nothing.
ghost use Rattle.std.specs.Prelude.{◌≡◌, ◌*◌, ◌<◌, length, IfOk, MatchBool, MatchResult};
ghost use Rattle.ring.specs.declared.play_error.PlayError.TheVariants.{Unfit};
ghost use Rattle.ring.specs.Machine.{Whole, numbers_of, state_in};
ghost use Rattle.ring.specs.Numbers.{member_of};
ghost use Rattle.ring.specs.Plays.{Fitting, Seated};
ghost use Rattle.ring.specs.Promise.{ring_of_settings};
ghost use Rattle.ring.specs.Tallies.{anew};

use crate::{Line, PlayError, Tally};
use frames::{Member, Settings};
use members::{how_many_may, member_after};
use posts::{Post, in_range};

// Whether each post stands in its place.
fn all_seated(posts: &[Post]) -> bool
    ensures { MatchBool result (Seated posts.now) (Seated posts.now → ⊥) }
{
    posts
        .iter()
        .enumerate()
        .all(|(i, post)| usize::from(post.place()) == i)
}

// The number of member `j`.
fn member_number(settings: &Settings, posts: &[Post], lines: &[Line], j: usize) -> u16
    requires whole { Whole settings.now.posts record { posts = posts.now; lines = lines.now } }
    requires there { j < 3 * settings.now.posts }
    ensures { result ≡ member_of settings.now.posts (numbers_of settings.now record { posts = posts.now; lines = lines.now }) j }
{
    let k = settings.k;
    match Member::from(j) {
        Member::Post(i) => in_range(posts[i].memory.number, k),
        Member::Frame(i) => lines[i].number(k),
        Member::End(i) => in_range(posts[member_after(posts.len(), i)].memory.heard, k),
    }
}

// Writes the numbers of all members over whatever stood there.
fn write_numbers(settings: &Settings, posts: &[Post], lines: &[Line], numbers: &mut [u16])
    requires whole { Whole settings.now.posts record { posts = posts.now; lines = lines.now } }
    requires count_of_numbers { length numbers.old ≡ 3 * settings.now.posts }
    ensures { numbers.new ≡ state_in settings.now record { posts = posts.now; lines = lines.now } }
{
    for (j, number) in numbers.iter_mut().enumerate() {
        *number = member_number(settings, posts, lines, j);
    }
}

// The numbers of all members, and the tally from which counting begins; refused where the slices don't fit the settings.
pub(crate) fn start(
    settings: &Settings,
    posts: &[Post],
    lines: &[Line],
    numbers: &mut [u16],
) -> Result<Tally, PlayError>
    ensures fits { MatchResult result (λ _. Fitting settings.now posts.now lines.now numbers.old) (λ e. (e ≡ Unfit) × (Fitting settings.now posts.now lines.now numbers.old → ⊥)) }
    ensures numbers { MatchResult result (λ _. numbers.new ≡ state_in settings.now record { posts = posts.now; lines = lines.now }) (λ _. numbers.new ≡ numbers.old) }
    ensures tally { IfOk result (λ y. y ≡ anew (ring_of_settings settings.now) (state_in settings.now record { posts = posts.now; lines = lines.now })) }
{
    let count = usize::from(settings.posts);
    if posts.len() != count
        || lines.len() != count
        || numbers.len() != 3 * count
        || !all_seated(posts)
    {
        return Err(PlayError::Unfit);
    }
    write_numbers(settings, posts, lines, numbers);
    let Ok(holders) = how_many_may(numbers, settings.k) else {
        unreachable()
    };
    Ok(Tally::begin(holders))
}
