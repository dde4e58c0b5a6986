//! Where options lead.

/// What comes behind the answer to an option.
#[derive(Clone, Copy)]
pub(crate) enum Course {
    /// The next option.
    GoesOn,
    /// The transmission.
    Agreed,
    /// Nothing: the client has left.
    Left,
}

impl Course {
    ghost use Rattle.std.specs.Prelude.{◌≡◌, ◌↔◌, IsTrue};
    ghost use Rattle.nbd_serve.specs.declared.course.Course.TheVariants.{GoesOn, Left};

    /// Whether the client has left.
    pub(crate) fn is_left(self) -> bool
        ensures { IsTrue result ↔ (self ≡ Left) }
    {
        matches!(self, Course::Left)
    }

    /// Whether the next option comes.
    pub(crate) fn goes_on(self) -> bool
        ensures { IsTrue result ↔ (self ≡ GoesOn) }
    {
        matches!(self, Course::GoesOn)
    }
}

/// What the data of INFO or GO ask for.
#[derive(Clone, Copy)]
pub(crate) enum Wish {
    /// The export.
    Known,
    /// An export that isn't there.
    Unknown,
    /// Nothing: they are broken.
    Broken,
}

impl Wish {
    ghost use Rattle.std.specs.Prelude.{◌≡◌};
    ghost use Rattle.nbd_serve.specs.Options.{go_course};

    /// Where GO leads.
    pub(crate) fn go_course(self) -> Course
        ensures { result ≡ go_course self }
    {
        match self {
            Wish::Known => Course::Agreed,
            Wish::Unknown | Wish::Broken => Course::GoesOn,
        }
    }
}
