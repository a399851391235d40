//! One test: a mail, what programs answer, and where the mail is to go.
ghost use Rattle.std.specs.Prelude.{◌≡◌};

use crate::Answer;
use pm_bytes::Blob;
use std::marker::Model;

/// One test of an rcfile. Names are as they stand in the file.
#[derive(Drop)]
pub struct Test {
    line: u64,
    mail: Blob,
    answers: Vec<Answer>,
    wanted: Vec<Blob>,
    status: Option<u8>,
}

impl Model for Test {
    ghost use Rattle.test_text.specs.Said.{Said};

    ghost Value = { Said };

    ghost view = { λ t. record {
      line = t.line;
      mail = t.mail;
      answers = t.answers.items;
      wanted = t.wanted.items;
      status = t.status;
    } };
}

impl Test {
    pub(crate) fn new(
        line: u64,
        mail: Blob,
        answers: Vec<Answer>,
        wanted: Vec<Blob>,
        status: Option<u8>,
    ) -> Test
        ensures { result ≡ record {
          line = line;
          mail = mail;
          answers = answers.items;
          wanted = wanted.items;
          status = status;
        } }
    {
        Test {
            line,
            mail,
            answers,
            wanted,
            status,
        }
    }

    /// On which line it stands, from 1.
    pub fn line(&self) -> u64
        ensures { result ≡ self.now.line }
    {
        self.line
    }

    /// The name of the mail's file.
    pub fn mail(&self) -> &[u8]
        ensures { result.now ≡ self.now.mail }
    {
        self.mail.as_slice()
    }

    pub fn answers(&self) -> &[Answer]
        ensures { result.now ≡ self.now.answers }
    {
        self.answers.as_slice()
    }

    /// The destinations, in the order in which they stand.
    pub fn wanted(&self) -> &[Blob]
        ensures { result.now ≡ self.now.wanted }
    {
        self.wanted.as_slice()
    }

    /// The exit status, where one is asked for.
    pub fn status(&self) -> Option<u8>
        ensures { result ≡ self.now.status }
    {
        self.status
    }
}
