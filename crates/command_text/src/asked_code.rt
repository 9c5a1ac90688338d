ghost use Rattle.std.specs.Prelude.{◌≡◌};
ghost use Rattle.command_text.specs.Forms.{asked_code, decision_of};

use media_base::{Code, Decision, FileNo};

/// What the number of a decision's code asks. The numbers follow the Hydrus Client API.
#[derive(Clone, Copy)]
pub enum AskedCode {
    As(Code),
    /// The second file is the better one.
    Worse,
}

impl AskedCode {
    pub fn of_number(number: u64) -> Option<AskedCode>
        ensures { result ≡ asked_code number }
    {
        match number {
            1 => Some(AskedCode::As(Code::NotRelated)),
            2 => Some(AskedCode::As(Code::Same)),
            3 => Some(AskedCode::As(Code::Alternates)),
            4 => Some(AskedCode::As(Code::Better)),
            7 => Some(AskedCode::Worse),
            _ => None,
        }
    }

    /// Worse a b is better b a.
    pub fn decision(self, a: FileNo, b: FileNo) -> Decision
        ensures { result ≡ decision_of self a b }
    {
        match self {
            AskedCode::As(code) => Decision { code, a, b },
            AskedCode::Worse => Decision {
                code: Code::Better,
                a: b,
                b: a,
            },
        }
    }
}
