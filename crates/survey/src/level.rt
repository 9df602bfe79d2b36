ghost use Rattle.std.specs.Prelude.{◌≡◌, ◌≤◌, length};
ghost use Rattle.model.specs.Survey.{count_from};
ghost use Rattle.survey.specs.Levels.{permission_level, level_number, level_or_zero};

use words::Permission;

// How a cell is marked that a held capability covers. The number is its byte; a cell with no mark has 0.
#[derive(Clone, Copy, Debug, PartialEq, Eq)]
pub enum Level {
    Reached = 1,
    Writable = 2,
}

impl Level {
    // The level at which a capability with this permission marks, if it marks at all.
    pub fn of(permission: Permission) -> Option<Level>
        ensures { level_or_zero result ≡ permission_level permission }
    {
        match permission {
            Permission::O => None,
            _ if permission.writes() => Some(Level::Writable),
            _ => Some(Level::Reached),
        }
    }

    // How many cells are marked at least at this level. A sum of ones, since a filter and its count took a third longer.
    pub fn count(self, marks: &[u8]) -> usize
        requires { length marks.now ≤ 65536 }
        ensures { result ≡ count_from (level_number self) marks.now }
    {
        let byte = u8::from(self);
        marks
            .iter()
            .map(move |mark| usize::from(*mark >= byte))
            .sum()
    }
}

// The byte of a cell that is marked so.
impl From<Level> for u8 {
    ghost from_gives = { λ level byte. byte ≡ level_number level };

    fn from(level: Level) -> u8 {
        level as u8
    }
}
