//! The words that lines begin with.
ghost use Rattle.std.specs.Prelude.{◌≡◌};
ghost use Rattle.schedule_lines.specs.Keywords.{keyword_text, keyword_of};

/// What stands first in a line.
#[derive(Clone, Copy, Debug, PartialEq, Eq)]
pub(crate) enum Keyword {
    Pool,
    Hold,
    Release,
    Write,
    Create,
    Snapshot,
    Clone,
    Destroy,
    Close,
    Quiesced,
    Plan,
    Device,
    Commit,
    Sync,
    Read,
    Under,
    Out,
    Stop,
    Reopen,
}

impl Keyword {
    const ALL: [Keyword; 19] = [
        Keyword::Pool,
        Keyword::Hold,
        Keyword::Release,
        Keyword::Write,
        Keyword::Create,
        Keyword::Snapshot,
        Keyword::Clone,
        Keyword::Destroy,
        Keyword::Close,
        Keyword::Quiesced,
        Keyword::Plan,
        Keyword::Device,
        Keyword::Commit,
        Keyword::Sync,
        Keyword::Read,
        Keyword::Under,
        Keyword::Out,
        Keyword::Stop,
        Keyword::Reopen,
    ];

    fn text(&self) -> &'static str
        ensures { result.now ≡ keyword_text self.now }
    {
        match self {
            Keyword::Pool => "pool",
            Keyword::Hold => "hold",
            Keyword::Release => "release",
            Keyword::Write => "write",
            Keyword::Create => "create",
            Keyword::Snapshot => "snapshot",
            Keyword::Clone => "clone",
            Keyword::Destroy => "destroy",
            Keyword::Close => "close",
            Keyword::Quiesced => "quiesced",
            Keyword::Plan => "plan",
            Keyword::Device => "device",
            Keyword::Commit => "commit",
            Keyword::Sync => "sync",
            Keyword::Read => "read",
            Keyword::Under => "under",
            Keyword::Out => "out",
            Keyword::Stop => "stop",
            Keyword::Reopen => "reopen",
        }
    }

    #[tactic(auto, unfolding(crate::specs::Keywords::keyword_of))]
    pub(crate) fn from_word(word: &[u8]) -> Option<Keyword>
        ensures { result ≡ keyword_of word.now }
    {
        Keyword::ALL
            .iter()
            .copied()
            .find(|keyword| keyword.text().as_bytes() == word)
    }
}
