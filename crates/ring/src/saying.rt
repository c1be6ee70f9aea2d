// What a show says, added to a report. Where memory fails, the report has a first part of it. Assumes nothing.
ghost use Rattle.std.specs.Prelude.{◌≡◌, ◌<◌, [], ◌∷◌, ◌++◌, map, OnOk};
ghost use Rattle.posts.specs.Steps.{deeds_in};
ghost use Rattle.ring.specs.Lent.{KeptInStep, stage_in};
ghost use Rattle.ring.specs.Plays.{show};
ghost use Rattle.ring.specs.Reports.{Adds};

use crate::stage::Stage;
use crate::{Report, Said};
use frames::Settings;
use posts::Post;
use std::alloc::AllocError;

// Adds for each post whether it would speak in a tick now. One by one, since the vector holds those of earlier shows.
fn push_speakers(
    speakers: &mut Vec<bool>,
    settings: &Settings,
    posts: &[Post],
) -> Result<(), AllocError>
    ensures { OnOk result (speakers.new.items ≡ speakers.old.items ++ map (λ p. (deeds_in settings.now p).speaks) posts.now) }
{
    for post in posts {
        speakers.push(post.deeds(settings).speaks)?;
    }
    Ok(())
}

impl Stage<'_> {
    // All numbers, who would speak, and the counts of one post.
    pub(crate) fn show(&self, report: &mut Report, post: u8) -> Result<(), AllocError>
        requires in_step { KeptInStep self.now }
        requires there { post < self.now.settings.now.posts }
        ensures { OnOk result (Adds report.old report.new (show self.now.settings.now post (stage_in self.now).machine ∷ [])) }
    {
        report.numbers.extend_from_slice(self.numbers)?;
        push_speakers(&mut report.speakers, self.settings, self.posts)?;
        report
            .said
            .push(Said::Shown(self.posts[usize::from(post)].counts()))?;
        Ok(())
    }
}
