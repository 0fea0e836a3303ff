// The places of entries among those that last.
ghost use Rattle.std.specs.Prelude.{◌≡◌, ◌≤◌, length};
ghost use Rattle.lasting_events.specs.Lasting.{lasting_places, place_among};

use hub_history::EntryList;

/// The place of a log's entry among those that last, by their places behind the first entries. It is a binary
/// search; the log itself isn't read.
pub fn place_among(start: u64, places: &[u64], _log: &EntryList, place: u64) -> u64
    requires places { places.now ≡ lasting_places start _log.now }
    requires within { place ≤ length _log.now }
    ensures { result ≡ place_among start _log.now place }
{
    if place < start {
        return place;
    }
    start + places.partition_point(|other| *other < place) as u64
}
