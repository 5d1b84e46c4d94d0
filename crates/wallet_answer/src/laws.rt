//! What holds of the definitions alone.

ghost use Rattle.wallet_answer.specs.Distinct.{AreWishesDistinct};

/// Of each document that a text asks for, no two wishes are for one element.
pub fn no_wish_twice()
    ensures { AreWishesDistinct }
{}
