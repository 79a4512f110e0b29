//! Laws of masks and of agreeing: each function does nothing, and its contract is the law.

ghost use Rattle.mask_table.specs.Agreeing.{AgreesInWords, AgreesWhereMaskedEqual, AgreesAtSmallerRanks, MaskedAgrees, MaskedTwiceIsOnce, MaskedBits};
ghost use Rattle.mask_table.specs.Ranks.{MaskIsOfRank, RankIsOfMask};

/// A rank is that of its mask, and a mask is that of its rank.
pub fn ranks_are_masks()
    ensures rank { RankIsOfMask }
    ensures mask { MaskIsOfRank }
{}

/// At rank 33 an address agrees with a key where it is the key, and at a smaller rank where its first bits, as many as
/// the rank says, are the key's.
pub fn agreeing_in_words()
    ensures { AgreesInWords }
{}

/// An address agrees with a key where both are the same once they are masked.
pub fn agrees_where_masked_equal()
    ensures { AgreesWhereMaskedEqual }
{}

/// An address that agrees with a key at a rank agrees with it at each smaller one.
pub fn agrees_at_smaller_ranks()
    ensures { AgreesAtSmallerRanks }
{}

/// A masked address agrees with the address that it was made of.
pub fn masked_agrees()
    ensures { MaskedAgrees }
{}

/// Masking an address again at the same rank changes nothing.
pub fn masked_twice_is_once()
    ensures { MaskedTwiceIsOnce }
{}

/// Masking keeps the bits before the rank and clears those past it.
pub fn masked_bits()
    ensures { MaskedBits }
{}
