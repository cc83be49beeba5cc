// A check for these examples: a tag is one byte, the number of its site.
ghost use Rattle.call_tests.specs.Signs.{signed_by, Short-signed_by};

use checks::Check;

pub struct Signs;

impl Check for Signs {
    ghost vouched = { λ c. signed_by };

    fn vouches(&self, site: u32, statement: &[u8], tag: &[u8]) -> bool {
        statement.len() <= 64 && tag.len() == 1 && u32::from(tag[0]) == site
    }

    ghost short = { λ c. Short-signed_by };
}
