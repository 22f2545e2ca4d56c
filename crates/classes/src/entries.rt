// The table of classes. A class is a number that has a bit for each property of its bytes, in the order in which
// lib.rt numbers the properties; bytes that no property tells apart share a class.

// 128 and more
const HIGH: u16 = 0b0_0000_0001_0000;

// any other byte that a line can hold
const OTHER: u16 = 0b0_0000_0011_1000;

// any other byte under 32, and 127
const CONTROL: u16 = 0b0_0000_0001_1000;

// 0 to 9
const DIGIT: u16 = 0b0_0000_1111_1111;

// A to F, a to f
const HEX_LETTER: u16 = 0b0_0001_1011_1101;

// another letter
const LETTER: u16 = 0b0_0001_0011_1001;

// `_`
const UNDERSCORE: u16 = 0b0_0001_1111_1001;

const SPACE: u16 = 0b1_0010_0011_1000;

const TAB: u16 = 0b1_0010_0001_1000;

const LF: u16 = 0b0_1010_0000_1000;

const CR: u16 = 0b0_0100_0001_1000;

// `/`
const SLASH: u16 = 0b0_1100_0011_1000;

// `*`
const STAR: u16 = 0b0_1000_0011_1000;

pub const CLASSES: [u16; 256] = [
    CONTROL, // 0
    CONTROL, // 1
    CONTROL, // 2
    CONTROL, // 3
    CONTROL, // 4
    CONTROL, // 5
    CONTROL, // 6
    CONTROL, // 7
    CONTROL, // 8
    TAB, // TAB
    LF, // LF
    CONTROL, // 11
    CONTROL, // 12
    CR, // CR
    CONTROL, // 14
    CONTROL, // 15
    CONTROL, // 16
    CONTROL, // 17
    CONTROL, // 18
    CONTROL, // 19
    CONTROL, // 20
    CONTROL, // 21
    CONTROL, // 22
    CONTROL, // 23
    CONTROL, // 24
    CONTROL, // 25
    CONTROL, // 26
    CONTROL, // 27
    CONTROL, // 28
    CONTROL, // 29
    CONTROL, // 30
    CONTROL, // 31
    SPACE, // space
    OTHER, // !
    OTHER, // "
    OTHER, // #
    OTHER, // $
    OTHER, // %
    OTHER, // &
    OTHER, // '
    OTHER, // (
    OTHER, // )
    STAR, // *
    OTHER, // +
    OTHER, // ,
    OTHER, // -
    OTHER, // .
    SLASH, // /
    DIGIT, // 0
    DIGIT, // 1
    DIGIT, // 2
    DIGIT, // 3
    DIGIT, // 4
    DIGIT, // 5
    DIGIT, // 6
    DIGIT, // 7
    DIGIT, // 8
    DIGIT, // 9
    OTHER, // :
    OTHER, // ;
    OTHER, // <
    OTHER, // =
    OTHER, // >
    OTHER, // ?
    OTHER, // @
    HEX_LETTER, // A
    HEX_LETTER, // B
    HEX_LETTER, // C
    HEX_LETTER, // D
    HEX_LETTER, // E
    HEX_LETTER, // F
    LETTER, // G
    LETTER, // H
    LETTER, // I
    LETTER, // J
    LETTER, // K
    LETTER, // L
    LETTER, // M
    LETTER, // N
    LETTER, // O
    LETTER, // P
    LETTER, // Q
    LETTER, // R
    LETTER, // S
    LETTER, // T
    LETTER, // U
    LETTER, // V
    LETTER, // W
    LETTER, // X
    LETTER, // Y
    LETTER, // Z
    OTHER, // [
    OTHER, // \
    OTHER, // ]
    OTHER, // ^
    UNDERSCORE, // _
    OTHER, // `
    HEX_LETTER, // a
    HEX_LETTER, // b
    HEX_LETTER, // c
    HEX_LETTER, // d
    HEX_LETTER, // e
    HEX_LETTER, // f
    LETTER, // g
    LETTER, // h
    LETTER, // i
    LETTER, // j
    LETTER, // k
    LETTER, // l
    LETTER, // m
    LETTER, // n
    LETTER, // o
    LETTER, // p
    LETTER, // q
    LETTER, // r
    LETTER, // s
    LETTER, // t
    LETTER, // u
    LETTER, // v
    LETTER, // w
    LETTER, // x
    LETTER, // y
    LETTER, // z
    OTHER, // {
    OTHER, // |
    OTHER, // }
    OTHER, // ~
    CONTROL, // 127
    HIGH, // 128
    HIGH, // 129
    HIGH, // 130
    HIGH, // 131
    HIGH, // 132
    HIGH, // 133
    HIGH, // 134
    HIGH, // 135
    HIGH, // 136
    HIGH, // 137
    HIGH, // 138
    HIGH, // 139
    HIGH, // 140
    HIGH, // 141
    HIGH, // 142
    HIGH, // 143
    HIGH, // 144
    HIGH, // 145
    HIGH, // 146
    HIGH, // 147
    HIGH, // 148
    HIGH, // 149
    HIGH, // 150
    HIGH, // 151
    HIGH, // 152
    HIGH, // 153
    HIGH, // 154
    HIGH, // 155
    HIGH, // 156
    HIGH, // 157
    HIGH, // 158
    HIGH, // 159
    HIGH, // 160
    HIGH, // 161
    HIGH, // 162
    HIGH, // 163
    HIGH, // 164
    HIGH, // 165
    HIGH, // 166
    HIGH, // 167
    HIGH, // 168
    HIGH, // 169
    HIGH, // 170
    HIGH, // 171
    HIGH, // 172
    HIGH, // 173
    HIGH, // 174
    HIGH, // 175
    HIGH, // 176
    HIGH, // 177
    HIGH, // 178
    HIGH, // 179
    HIGH, // 180
    HIGH, // 181
    HIGH, // 182
    HIGH, // 183
    HIGH, // 184
    HIGH, // 185
    HIGH, // 186
    HIGH, // 187
    HIGH, // 188
    HIGH, // 189
    HIGH, // 190
    HIGH, // 191
    HIGH, // 192
    HIGH, // 193
    HIGH, // 194
    HIGH, // 195
    HIGH, // 196
    HIGH, // 197
    HIGH, // 198
    HIGH, // 199
    HIGH, // 200
    HIGH, // 201
    HIGH, // 202
    HIGH, // 203
    HIGH, // 204
    HIGH, // 205
    HIGH, // 206
    HIGH, // 207
    HIGH, // 208
    HIGH, // 209
    HIGH, // 210
    HIGH, // 211
    HIGH, // 212
    HIGH, // 213
    HIGH, // 214
    HIGH, // 215
    HIGH, // 216
    HIGH, // 217
    HIGH, // 218
    HIGH, // 219
    HIGH, // 220
    HIGH, // 221
    HIGH, // 222
    HIGH, // 223
    HIGH, // 224
    HIGH, // 225
    HIGH, // 226
    HIGH, // 227
    HIGH, // 228
    HIGH, // 229
    HIGH, // 230
    HIGH, // 231
    HIGH, // 232
    HIGH, // 233
    HIGH, // 234
    HIGH, // 235
    HIGH, // 236
    HIGH, // 237
    HIGH, // 238
    HIGH, // 239
    HIGH, // 240
    HIGH, // 241
    HIGH, // 242
    HIGH, // 243
    HIGH, // 244
    HIGH, // 245
    HIGH, // 246
    HIGH, // 247
    HIGH, // 248
    HIGH, // 249
    HIGH, // 250
    HIGH, // 251
    HIGH, // 252
    HIGH, // 253
    HIGH, // 254
    HIGH, // 255
];
