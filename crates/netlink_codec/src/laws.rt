//! Laws of the definitions, each the contract of a function that does nothing.

ghost use Rattle.std.specs.Prelude.{◌≡◌, ℕ, ◌+◌, List, [], ◌∷◌, ◌++◌, true, false, length, min};
ghost use Rattle.std.specs.Prelude.{Some};
ghost use Rattle.netlink_codec.specs.Numbers.{attribute_header_length, message_header_length};
ghost use Rattle.netlink_codec.specs.Messages.{AreBytes, NetlinkMessage, FitsHeader, Front};
ghost use Rattle.netlink_codec.specs.Messages.{first_message, message_text, message_with, pad};
ghost use Rattle.netlink_codec.specs.Attributes.{Attribute, AllFit, Holds, after_attribute};
ghost use Rattle.netlink_codec.specs.Attributes.{attribute_text, attributes, attributes_text};
ghost use Rattle.netlink_codec.specs.Attributes.{first_attribute, has_attribute};

/// What [`put_message`](crate::put_message) writes begins with that message, whatever follows, and
/// uses its length rounded up, or all that is there.
pub fn written_message_is_in_front()
    ensures front { (kind flags sequence port : ℕ) (body behind : List ℕ) →
        FitsHeader (message_with kind flags sequence port body) →
        let text = message_text kind flags sequence port body in
        Front (text ++ behind) (message_with kind flags sequence port body)
        (min (pad (length text)) (length (text ++ behind))) }
    ensures reading { (kind flags sequence port : ℕ) (body behind : List ℕ) →
        FitsHeader (message_with kind flags sequence port body) →
        let text = message_text kind flags sequence port body in
        first_message (text ++ behind)
        ≡ Some (
          message_with kind flags sequence port body,
          min (pad (length text)) (length (text ++ behind)),
        ) }
    ensures size { (kind flags sequence port : ℕ) (body : List ℕ) →
        length (message_text kind flags sequence port body) ≡ message_header_length + length body }
{}

/// Bytes begin with at most one message, and it is the one that reading them gives.
pub fn one_message_in_front()
    ensures read { (bytes : List ℕ) (message : NetlinkMessage) (used : ℕ) →
        Front bytes message used → first_message bytes ≡ Some (message, used) }
    ensures stands { (bytes : List ℕ) (message : NetlinkMessage) (used : ℕ) → AreBytes bytes →
        first_message bytes ≡ Some (message, used) → Front bytes message used }
{}

/// The walk over what a row of [`put_attr`](crate::put_attr) wrote gives exactly those attributes,
/// and then those of what follows.
pub fn written_attributes_are_walked()
    ensures row { (row : List Attribute) → AllFit row → attributes (attributes_text row) ≡ row }
    ensures behind { (row : List Attribute) (behind : List ℕ) → AllFit row →
        attributes (attributes_text row ++ behind) ≡ row ++ attributes behind }
    ensures size { (a : Attribute) →
        length (attribute_text a) ≡ pad (attribute_header_length + length a.content) }
{}

/// A body holds at most one row of attributes, and it is the one that the walk gives.
pub fn one_row_is_held()
    ensures walked { (body : List ℕ) (row : List Attribute) →
        Holds body row → attributes body ≡ row }
    ensures held { (body : List ℕ) → AreBytes body → Holds body (attributes body) }
{}

/// The walk goes on after each attribute, and ends where none begins.
pub fn walk_goes_on_or_ends()
    ensures goes_on { (body : List ℕ) → has_attribute body ≡ true →
        attributes body ≡ first_attribute body ∷ attributes (after_attribute body) }
    ensures ends { (body : List ℕ) → has_attribute body ≡ false → attributes body ≡ [] }
{}
