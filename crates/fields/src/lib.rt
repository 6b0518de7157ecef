// The fields of a job, by value.
#![tactic(auto)]

ghost use Rattle.std.specs.Prelude.{◌≡◌};
ghost use Rattle.fields.specs.Fields.{blank_section, blank_job};

/// A section of pipe with what stands at its end. Length in decimetres, elevation and free head in cm.
#[derive(Clone, Copy, Debug, Default, PartialEq, Eq)]
pub struct Section {
    pub parent: u8,
    // A number and no enum: the writer is given any, and answers 5 where it is no kind.
    pub kind: u8,
    pub fixtures: u16,
    pub decimetres: u16,
    pub elevation: i16,
    pub free: u16,
}

/// The head of a job: the version of its record, the service (0 total, 1 cold, 2 hot), k, S, T, meter loss, G, H and velocity limit.
#[derive(Clone, Copy, Debug, Default, PartialEq, Eq)]
pub struct Header {
    // Numbers and no enums: the writer is given any, and answers 2 or 3 where they are none.
    pub version: u8,
    pub service: u8,
    pub tenths: u8,
    pub sections: u8,
    pub hours: u8,
    pub meter: u16,
    pub guaranteed: u16,
    pub delivered: u16,
    pub limit: u16,
}

/// A job. The residents of kind c are at place c - 1, section i at place i; place 0 stands for the pump.
#[derive(Clone, Copy, Debug, Default, PartialEq, Eq)]
pub struct Job {
    pub header: Header,
    pub residents: [u16; 12],
    // No heap: 64 places, of which the head's count says how many are sections.
    pub sections: [Section; 64],
}

impl Job {
    ghost use Rattle.std.specs.Prelude.{◌≡◌, ◌≤◌};
    ghost use Rattle.fields.specs.Fields.{count_of};

    /// S, the number of sections.
    pub fn count(&self) -> usize
        ensures is { result ≡ count_of self.now }
        ensures small { result ≤ 255 }
    {
        usize::from(self.header.sections)
    }
}

/// A section with all fields zero.
pub fn blank_section() -> Section
    ensures { result ≡ blank_section }
{
    Section::default()
}

/// All fields zero. (The derived `Default` does not say of the arrays what stands in them.)
#[tactic(auto, unfolding(crate::specs::Fields::blank_job))]
pub fn blank_job() -> Job
    ensures { result ≡ blank_job }
{
    Job {
        header: Header::default(),
        residents: [0; 12],
        sections: [blank_section(); 64],
    }
}
