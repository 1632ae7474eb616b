// The help texts: one for each command, and one for all.
use crate::verb::Verb;

// The text on a command, or on all of them.
pub(crate) fn on(verb: Option<Verb>) -> &'static [u8] {
    match verb {
        Some(Verb::Write) =>
            b"usage: wikuay write SERVICE TEXT [--coding OCTET] [--letters LL] [--room N] [--json]
       wikuay write SERVICE --units UNITS [--coding OCTET] [--letters LL] [--room N] [--json]
Writes a text as a message: its octets, its length count and its data coding octet.
  TEXT             plain ASCII, typed as it is; - reads it from standard input, without its closing line end
  --units UNITS    the text as UCS2 units instead, four hexadecimal digits each
  --coding OCTET   write under what this coding octet says: UCS2, a class, a language, a waiting notice
  --letters LL     the two letters of the language, a to z, which a broadcast page of coding 10 or 11 has in front of its text
  --room N         lend a buffer of N octets only
  --json           answer with one object of JSON
wikuay write sms Hello
  octets C8329BFD06
  count 5
  coding 00
wikuay write cbs --coding 10 --letters en Hello
  octets 6577035966B3DF8D46A3D168341A8D46A3D168341A8D46A3D168341A8D46A3D168341A8D46A3D168341A8D46A3D168341A8D46A3D168341A8D46A3D168341A8D46A3D168341A8D46A3D168341A8D46A3D100
  count 0
  coding 10
",
        Some(Verb::Read) =>
            b"usage: wikuay read SERVICE OCTETS [--coding OCTET] [--count N] [--json]
Reads the octets of a message: the units of its text in hexadecimal, the letters of the language where a page has them, and the text.
  OCTETS           two hexadecimal digits each; - reads them from standard input
  --coding OCTET   the data coding octet; if not given, 00 for sms and old, 0F for cbs and ussd
  --count N        the length count that travels with a short message: septets, or octets for UCS2
  --json           answer with one object of JSON
wikuay read sms --count 5 C8329BFD06
  units 00480065006C006C006F
  text Hello
",
        Some(Verb::Coding) => b"usage: wikuay coding SERVICE OCTET [--json]
Says what a data coding octet means, whether such a message holds text, and as which octet it is written.
  OCTET            two hexadecimal digits; - reads them from standard input
  --json           answer with one object of JSON
wikuay coding sms F5
  alphabet 8-bit data
  compressed no
  class 1
  language unspecified
  deletion no
  notice none
  prefix no
  reserved no
  header no
  text refused 2 at 0: the coding holds no text
  written 15
",
        Some(Verb::Explain) => b"usage: wikuay explain SERVICE OCTETS [--coding OCTET] [--count N]
Draws a message: its octets, where each septet or unit lies in them, what it means, and the text.
  OCTETS           two hexadecimal digits each; - reads them from standard input
  --coding OCTET   the data coding octet; if not given, 00 for sms and old, 0F for cbs and ussd
  --count N        the length count that travels with a short message: septets, or octets for UCS2
wikuay explain sms --count 2 9B32
  alphabet 7-bit
  octet 0 9B 10011011
  octet 1 32 00110010
  septet 0 1B 0011011 octet 0 bits 6..0: escape
  septet 1 65 1100101 octet 0 bit 7, octet 1 bits 5..0: with the escape \\u20AC
  spare octet 1 bits 7..6 00
  text \\u20AC
",
        Some(Verb::Pack) => b"usage: wikuay pack SERVICE SEPTETS [--json]
Packs septets, 00 to 7F, into octets, with the filling and the CR that the service adds.
  SEPTETS          two hexadecimal digits each; - reads them from standard input
  --json           answer with one object of JSON
wikuay pack ussd 00 00 00 00 00 00 00
  octets 0000000000001A
  count 0
",
        Some(Verb::Unpack) => b"usage: wikuay unpack SERVICE OCTETS [--count N] [--json]
Unpacks octets into septets, with filling dropped.
  OCTETS           two hexadecimal digits each; - reads them from standard input
  --count N        the length count that travels with a short message
  --json           answer with one object of JSON
wikuay unpack sms --count 2 4121
  septets 4142
",
        Some(Verb::Room) => b"usage: wikuay room SERVICE TEXT [--json]
       wikuay room SERVICE --units UNITS [--json]
Shows how many septets remain after each key of a text, below zero where the text is over. A key that is refused changes nothing.
  TEXT             plain ASCII, typed as it is; - reads it from standard input, without its closing line end
  --units UNITS    the text as UCS2 units instead, four hexadecimal digits each
                   a backspace, 0008, takes the last unit back, and a cancel, 0018, clears
  --json           answer with one object of JSON
wikuay room sms 'ok['
  size 160
  key 1 o 159
  key 2 k 158
  key 3 [ 156
",
        Some(Verb::Pages) =>
            b"usage: wikuay pages TEXT [--sequence N] [--identifier N] [--coding OCTET] [--letters LL] [--page K] [--room N] [--json]
       wikuay pages --units UNITS [--sequence N] [--identifier N] [--coding OCTET] [--letters LL] [--page K] [--room N] [--json]
Writes a text as a broadcast message of 1 to 15 pages: how many they are, and a block of 88 octets for each.
  TEXT             plain ASCII, typed as it is; - reads it from standard input, without its closing line end
  --units UNITS    the text as UCS2 units instead, four hexadecimal digits each
  --sequence N     the sequence number, 0 to 65535; if not given, 0
  --identifier N   the message identifier, 0 to 65535; if not given, 0
  --coding OCTET   write under what this coding octet says; if not given, 0F
  --letters LL     the two letters of the language, with which several pages are refused
  --page K         this page alone, from 1
  --room N         lend a buffer of N octets only, for all pages
  --json           answer with one object of JSON
wikuay pages --sequence 1 --identifier 50 'Snow from six'
  pages 1
  page 1 000100320F1153F7FB0E32CBDF6DD03C8D6F341A8D46A3D168341A8D46A3D168341A8D46A3D168341A8D46A3D168341A8D46A3D168341A8D46A3D168341A8D46A3D168341A8D46A3D168341A8D46A3D168341A8D46A3D100
",
        Some(Verb::Join) => b"usage: wikuay join BLOCKS [--json]
Joins the pages of a broadcast message, in any order: the units of its text in hexadecimal, the text, and what its blocks say of it.
  BLOCKS           88 octets for each page, two hexadecimal digits each; - reads them from standard input
  --json           answer with one object of JSON
wikuay join 000100320F1153F7FB0E32CBDF6DD03C8D6F341A8D46A3D168341A8D46A3D168341A8D46A3D168341A8D46A3D168341A8D46A3D168341A8D46A3D168341A8D46A3D168341A8D46A3D168341A8D46A3D168341A8D46A3D100
  units 0053006E006F0077002000660072006F006D0020007300690078
  text Snow from six
  sequence 1
  identifier 50
  pages 1
",
        Some(Verb::Header) => b"usage: wikuay header BLOCK [--json]
Reads what stands in a block in front of its text: the sequence number, the message identifier, the coding octet, which page it is and of how many.
  BLOCK            88 octets, two hexadecimal digits each; - reads them from standard input
  --json           answer with one object of JSON
wikuay header 000100320F1153F7FB0E32CBDF6DD03C8D6F341A8D46A3D168341A8D46A3D168341A8D46A3D168341A8D46A3D168341A8D46A3D168341A8D46A3D168341A8D46A3D168341A8D46A3D168341A8D46A3D168341A8D46A3D100
  sequence 1
  identifier 50
  coding 0F
  page 1
  pages 1
",
        Some(Verb::Parts) =>
            b"usage: wikuay parts TEXT [--reference N] [--coding OCTET] [--part K] [--room N] [--json]
       wikuay parts --units UNITS [--reference N] [--coding OCTET] [--part K] [--room N] [--json]
Writes a text as a long short message of 1 to 255 parts: how many they are, whether a user data header stands in front of each, the
data coding octet, and the length count and the octets of each part. A text that fits alone has no header.
  TEXT             plain ASCII, typed as it is; - reads it from standard input, without its closing line end; at most 8192 octets
  --units UNITS    the text as UCS2 units instead, four hexadecimal digits each
  --reference N    the reference that the parts share, 0 to 255; if not given, 0
  --coding OCTET   write under what this coding octet says, as 08 of UCS2; if not given, 00
  --part K         this part alone, from 1
  --room N         lend a buffer of N octets only, for all parts or for the one
  --json           answer with one object of JSON
wikuay parts --coding 08 Hello
  parts 1
  mark 0
  coding 08
  count 1 10
  part 1 00480065006C006C006F
",
        Some(Verb::Part) =>
            b"usage: wikuay part OCTETS --count N [--mark M] [--coding OCTET] [--json]
Reads one part of a long short message: the units of its text in hexadecimal, the text, and the numbers of the part, where its header has them.
  OCTETS           two hexadecimal digits each; - reads them from standard input
  --count N        the length count that travels with it, which covers the header: septets, or octets for UCS2
  --mark M         whether a user data header stands in front, 1 or 0; if not given, 1
  --coding OCTET   the data coding octet; if not given, 00
  --json           answer with one object of JSON
wikuay part --count 10 050003050201906536
  units 00480065006C
  text Hel
  reference 5
  part 1
  parts 2
",
        Some(Verb::JoinParts) =>
            b"usage: wikuay join-parts PARTS --counts N,N.. [--coding OCTET] [--json]
Joins the parts of a long short message, in any order: the units of its text in hexadecimal, the text, the reference, and how many parts there are.
  PARTS            the octets of the parts, two hexadecimal digits each; - reads them from standard input; at most 8192 digits
  --counts N,N..   the length count of each part, in the order of the parts
  --coding OCTET   the data coding octet; if not given, 00
  --json           answer with one object of JSON
wikuay join-parts --counts 9,10 050003050202D86F 050003050201906536
  units 00480065006C006C006F
  text Hello
  reference 5
  parts 2
",
        Some(Verb::Lines) => b"usage: wikuay lines [--json]
Reads one request a line from standard input, as it is typed behind wikuay: write, read, coding, pack, unpack, room, pages, join, header,
parts, part or join-parts.
Each is answered on one line, in order, with the number of its line. An empty line is passed by.
The text of write, room, pages or parts is the rest of its line as it is; options stand before it, and -- before a text that begins with -.
  --json           answer each line with one object of JSON
echo 'write sms Hello' | wikuay lines
  1 octets C8329BFD06 count 5 coding 00
",
        Some(Verb::Help) | None =>
            b"usage: wikuay write SERVICE TEXT        a typed text into octets
       wikuay read SERVICE OCTETS       octets into text
       wikuay coding SERVICE OCTET      what a data coding octet says
       wikuay explain SERVICE OCTETS    a message drawn, septet by septet
       wikuay pack SERVICE SEPTETS      septets into octets
       wikuay unpack SERVICE OCTETS     octets into septets
       wikuay room SERVICE TEXT         the room left after each key of a text
       wikuay pages TEXT                a text into the blocks of a broadcast message of several pages
       wikuay join BLOCKS               blocks into text
       wikuay header BLOCK              what stands in a block in front of its text
       wikuay parts TEXT                a text into the parts of a long short message
       wikuay part OCTETS               one part into text, and its numbers
       wikuay join-parts PARTS          parts into text
       wikuay lines                     many requests, one a line
       wikuay help COMMAND              more on a command, with its options and an example
       wikuay --version                 the version
SERVICE is sms (a short message), cbs (a broadcast page), ussd or old (a page of 1991, read only).
Octets and septets are typed as two hexadecimal digits each, units as four, in one word or several; colons, spaces and 0x may part them.
- in the place of the text or of the octets reads it from standard input. At most 8192 octets are typed or read.
An option stands anywhere, as --count 5 or as --count=5; behind -- everything is a word.
A text is shown with \\uXXXX for a unit that is not plain ASCII, and \\\\ for a backslash.
The exit status is 0 where it is answered, 1 where it is refused, 2 where the usage is wrong, 3 where the command cannot run.
wikuay write sms Hello
  octets C8329BFD06
  count 5
  coding 00
",
    }
}
