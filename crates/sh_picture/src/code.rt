// How a program ends, as a code and as a text.
ghost use Rattle.std.specs.Prelude.{◌≡◌, Some};
ghost use Rattle.sh_picture.specs.Top.{picture_code, picture_text};

use crate::PictureStatus;
use sh_sheet::StatusText;
use std::fmt;

impl PictureStatus {
    /// The code that a program ends with: 11 for `NotLawful`, and else the status's.
    pub fn code(&self) -> u8
        ensures { result ≡ picture_code self.now }
    {
        match self {
            PictureStatus::Served(status) => status.code(),
            PictureStatus::NotLawful => 11,
        }
    }

    /// The text that tells it: that of the status, and none where the verdict's line tells it.
    pub fn text(&self) -> StatusText
        ensures { result.bytes ≡ picture_text self.now }
    {
        match self {
            PictureStatus::Served(status) => status.text(),
            PictureStatus::NotLawful => StatusText::new(),
        }
    }
}

impl fmt::Display for PictureStatus {
    ghost output = { λ status. Some (picture_text status) };

    fn fmt<W: fmt::Write>(&self, f: &mut fmt::Formatter<W>) -> fmt::Result {
        f.write_str(self.text().as_str())
    }
}
