// Who makes operations.
use rt_stamps::Site;

/// Who makes operations: a site, and the greatest count that it has seen. They get the stamps of the site with the counts after
/// this one.
#[derive(Clone, Copy)]
pub struct Author {
    pub site: Site,
    pub count: u64,
}
