//! The one abbreviation table that is written (DWARF 5, 7.5.3).

/// The codes of the declarations.
pub(crate) mod code {
    pub(crate) const COMPILE_UNIT: u8 = 1;

    pub(crate) const BASE_TYPE: u8 = 2;

    pub(crate) const STRUCTURE: u8 = 3;

    pub(crate) const MEMBER: u8 = 4;

    pub(crate) const TYPE_PARAMETER: u8 = 5;

    pub(crate) const POINTER: u8 = 6;

    pub(crate) const FUNCTION_POINTER: u8 = 7;

    pub(crate) const SUBROUTINE: u8 = 8;

    pub(crate) const ARRAY: u8 = 9;

    pub(crate) const SUBRANGE: u8 = 10;

    pub(crate) const ENUMERATION: u8 = 11;

    pub(crate) const ENUMERATOR: u8 = 12;

    pub(crate) const UNION: u8 = 13;

    pub(crate) const STATIC: u8 = 14;

    pub(crate) const STATIC_NOWHERE: u8 = 15;

    pub(crate) const TAGGED_PART: u8 = 16;

    pub(crate) const PART: u8 = 17;

    pub(crate) const TAG: u8 = 18;

    pub(crate) const VARIANT_1: u8 = 19;

    pub(crate) const VARIANT_2: u8 = 20;

    pub(crate) const VARIANT_4: u8 = 21;

    pub(crate) const VARIANT_8: u8 = 22;

    pub(crate) const VARIANT_16: u8 = 23;

    pub(crate) const VARIANT: u8 = 24;

    pub(crate) const VARIANT_MEMBER: u8 = 25;
}

/// The table: of each declaration its code, its tag, whether entries have children, and its attributes with their forms.
pub(crate) const TABLE: &[u8] = &[
    // compile_unit: language data1
    1, 0x11, 1, 0x13, 0x0b, 0, 0,
    // base_type: name string, encoding data1, byte_size data1
    2, 0x24, 0, 0x03, 0x08, 0x3e, 0x0b, 0x0b, 0x0b, 0, 0,
    // structure_type: name string, byte_size data4, alignment data4
    3, 0x13, 1, 0x03, 0x08, 0x0b, 0x06, 0x88, 0x01, 0x06, 0, 0,
    // member: name string, type ref4, data_member_location data4
    4, 0x0d, 0, 0x03, 0x08, 0x49, 0x13, 0x38, 0x06, 0, 0,
    // template_type_parameter: name string, type ref4
    5, 0x2f, 0, 0x03, 0x08, 0x49, 0x13, 0, 0,
    // pointer_type: name string, type ref4
    6, 0x0f, 0, 0x03, 0x08, 0x49, 0x13, 0, 0,
    // pointer_type: type ref4
    7, 0x0f, 0, 0x49, 0x13, 0, 0,
    // subroutine_type
    8, 0x15, 0, 0, 0,
    // array_type: type ref4
    9, 0x01, 1, 0x49, 0x13, 0, 0,
    // subrange_type: count data8
    10, 0x21, 0, 0x37, 0x07, 0, 0,
    // enumeration_type: name string, byte_size data1, type ref4
    11, 0x04, 1, 0x03, 0x08, 0x0b, 0x0b, 0x49, 0x13, 0, 0,
    // enumerator: name string, const_value data8
    12, 0x28, 0, 0x03, 0x08, 0x1c, 0x07, 0, 0,
    // union_type: name string, byte_size data4, alignment data4
    13, 0x17, 0, 0x03, 0x08, 0x0b, 0x06, 0x88, 0x01, 0x06, 0, 0,
    // variable: name string, type ref4, location exprloc
    14, 0x34, 0, 0x03, 0x08, 0x49, 0x13, 0x02, 0x18, 0, 0,
    // variable: name string, type ref4
    15, 0x34, 0, 0x03, 0x08, 0x49, 0x13, 0, 0,
    // variant_part: discr ref4
    16, 0x33, 1, 0x15, 0x13, 0, 0,
    // variant_part
    17, 0x33, 1, 0, 0,
    // member: type ref4, data_member_location data4
    18, 0x0d, 0, 0x49, 0x13, 0x38, 0x06, 0, 0,
    // variant: discr_value data1, data2, data4, data8, block1
    19, 0x19, 1, 0x16, 0x0b, 0, 0, 20, 0x19, 1, 0x16, 0x05, 0, 0, 21, 0x19, 1, 0x16, 0x06, 0, 0,
    22, 0x19, 1, 0x16, 0x07, 0, 0, 23, 0x19, 1, 0x16, 0x0a, 0, 0,
    // variant
    24, 0x19, 1, 0, 0,
    // member: name string, type ref4
    25, 0x0d, 0, 0x03, 0x08, 0x49, 0x13, 0, 0,
    // the end
    0,
];
