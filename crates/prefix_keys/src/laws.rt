//! Laws about printed texts.
ghost use Rattle.prefix_keys.specs.Displayed.{AddressIsDisplayed};
ghost use Rattle.prefix_keys.specs.Print.{AddressIsReadBack, BlockIsReadBack, LongestRunIsLongest};

/// The run of zero groups that a printed text leaves out is a longest one, and the first of those.
pub fn longest_run_is_longest()
    ensures { LongestRunIsLongest }
{}

/// The printed text of an address is the one that [`Ipv4Addr`](std::net::Ipv4Addr) displays, and that
/// [`hex_groups`](std::net::Ipv6Addr::hex_groups) displays (RFC 5952, section 4).
pub fn address_is_displayed()
    ensures { AddressIsDisplayed }
{}

/// The printed text of an address is one of its written forms.
pub fn address_is_read_back()
    ensures { AddressIsReadBack }
{}

/// The printed text of a block is one of its written forms.
pub fn block_is_read_back()
    ensures { BlockIsReadBack }
{}
