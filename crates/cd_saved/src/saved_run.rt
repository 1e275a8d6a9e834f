ghost use Rattle.std.specs.Prelude.{◌≡◌, IfSome};
ghost use Rattle.cd_tree.specs.Tree.{IsSound};
ghost use Rattle.cd_program.specs.Words.{IsSoundStart};
ghost use Rattle.cd_saved.specs.Words.{initial_of, saved_run};

use cd_program::Initial;
use cd_text::Text;
use cd_tree::Tree;

/// A run that saves, by what it begins with.
#[derive(Clone, Copy, Debug, PartialEq, Eq)]
pub enum SavedRun {
    /// `run --config FILE`: with the configuration of the file.
    OfFile,
    /// `run`: with the tree null.
    Null,
    /// `run --resume`: with the configuration that was saved last, or the tree null where none was.
    Resumed,
}

impl SavedRun {
    /// The run that saves that these words ask for, if any.
    pub fn of(words: &[Text]) -> Option<SavedRun>
        ensures { result ≡ saved_run words.now }
    {
        match words {
            [word] if word.equals("run") => Some(SavedRun::Null),
            [word, option] if word.equals("run") && option.equals("--resume") => {
                Some(SavedRun::Resumed)
            }
            [word, option, _] if word.equals("run") && option.equals("--config") => {
                Some(SavedRun::OfFile)
            }
            _ => None,
        }
    }

    /// What it begins with, where this tree was saved last.
    pub fn initial(self, saved: Option<Tree>) -> Initial
        requires { IfSome saved IsSound }
        ensures initial { result ≡ initial_of self saved }
        ensures sound { IsSoundStart result }
    {
        match self {
            SavedRun::OfFile => Initial::OfFile,
            SavedRun::Null => Initial::Null,
            SavedRun::Resumed => match saved {
                Some(tree) => Initial::Saved(tree),
                None => Initial::Null,
            },
        }
    }
}
