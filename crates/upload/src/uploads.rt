// Whose an upload is.
ghost use Rattle.std.specs.Prelude.{◌≡◌};
ghost use Rattle.rules.specs.Messages.{station};
ghost use Rattle.upload.specs.Turns.{others_upload, own_upload, station_of};

use plan::{Run, Station};

// A running upload of another station.
#[tactic(auto, unfolding(crate::specs::Turns::others_upload))]
pub fn others_upload(upload: Option<Run>, from: Station) -> bool
    ensures { result ≡ others_upload (station from.system from.component) upload }
{
    upload.is_some_and(|run| run.from != from)
}

// A running upload of this station: no opposite of the one above, since where nothing runs both are false.
#[tactic(auto, unfolding(crate::specs::Turns::own_upload))]
pub fn own_upload(upload: Option<Run>, from: Station) -> bool
    ensures { result ≡ own_upload (station from.system from.component) upload }
{
    upload.is_some_and(|run| run.from == from)
}

// The station that a timer call's reply goes to; 0/0 where nothing runs, as the definition `station_of` has it.
pub fn station_of(upload: Option<Run>) -> Station
    ensures { station result.system result.component ≡ station_of upload }
{
    let nobody = Station {
        system: 0,
        component: 0,
    };
    upload.map_or(nobody, |run| run.from)
}
