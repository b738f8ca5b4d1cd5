// The operations that the commands of a site make, as they are shown.
use crate::exchange::session;
use crate::files::{in_pieces, shows};
use crate::sites::Script;

// Each on what the ones before it left: text and tags; what was typed goes, and comes back under new stamps; what was
// removed in one group with its typing comes back behind its tombstone, and goes with the rest; of what was typed that
// goes which is still there, and it comes back alone.
const COMMANDS: Script = "
.t insert 1.0 ab t c {} d -> =
.t insert 1.x z -> ! 2 BadIndex
.t delete 1.0 x -> ! 2 BadIndex
.t delete 1.1 1.1 -> =
.t tag add sel 1.0 1.2 -> =
.t tag add t 1.0 end -> =
.t tag remove t 1.1 1.3 -> =
.t insert 1.2 x -> =
.t delete 1.0 1.3 -> =
.t insert 1.0 e {u t} -> =
.t tag delete t u t -> =
.t tag add t 1.0 9.9 -> =
.t delete 1.0 end -> =
.t configure -undo 1 -autoseparators 0 -> =
.t insert 1.0 ab bold -> =
.t edit undo -> =
.t edit redo -> =
.t delete 1.0 end -> =
.t edit reset -> =
.t insert 1.0 cd -> =
.t delete 1.1 -> =
.t edit undo -> =
.t edit redo -> =
.t delete 1.0 end -> =
.t edit reset -> =
.t insert 1.0 efg -> =
.t configure -undo 0 -> =
.t delete 1.1 -> =
.t configure -undo 1 -> =
.t edit undo -> =
.t edit redo -> =
";

const OPERATIONS: &str = "
insert 1.1 prev 0 after 0.0 text ab tags t
insert 3.1 prev 2 after 2.1 text c tags
insert 4.1 prev 3 after 3.1 text d tags
tag 5.1 prev 4 on t spans 0:1-1 1:3-4
tag 6.1 prev 5 off t spans 1:2-3
insert 7.1 prev 6 after 2.1 text x tags
delete 8.1 prev 7 spans 1:1-2 1:7-7
insert 9.1 prev 8 after 0.0 text e tags t u
tag 10.1 prev 9 off t spans 0:1-1 1:4-4 1:9-9
tag 11.1 prev 10 off u spans 1:9-9
tag 12.1 prev 11 on t spans 0:1-1 1:3-4 1:9-9
delete 13.1 prev 12 spans 1:3-4 1:9-9
tag 14.1 prev 13 off t spans 0:1-1
insert 15.1 prev 14 after 0.0 text ab tags bold
delete 17.1 prev 16 spans 1:15-16
insert 18.1 prev 17 after 15.1 text a tags bold
insert 19.1 prev 18 after 16.1 text b tags bold
delete 20.1 prev 19 spans 1:18-19
insert 21.1 prev 20 after 0.0 text cd tags
delete 23.1 prev 22 spans 1:22-22
insert 24.1 prev 23 after 22.1 text d tags
delete 25.1 prev 24 spans 1:21-21 1:24-24
insert 26.1 prev 25 after 21.1 text c tags
insert 27.1 prev 26 after 24.1 text d tags
delete 28.1 prev 27 spans 1:27-27
delete 29.1 prev 28 spans 1:26-26
insert 30.1 prev 29 after 0.0 text efg tags
delete 33.1 prev 32 spans 1:31-31
delete 34.1 prev 33 spans 1:30-30 1:32-32
insert 35.1 prev 34 after 30.1 text e tags
insert 36.1 prev 35 after 32.1 text g tags
";

// An Insert lists 255 tags.
const MANY_TAGS: Script =
    ".t insert 1.0 z {t256 t255 t254 t253 t252 t251 t250 t249 t248 t247 t246 t245 t244 t243 t242 t241 t240 t239 t238 t237 t236 t235 t234 t233 t232 t231 t230 t229 t228 t227 t226 t225 t224 t223 t222 t221 t220 t219 t218 t217 t216 t215 t214 t213 t212 t211 t210 t209 t208 t207 t206 t205 t204 t203 t202 t201 t200 t199 t198 t197 t196 t195 t194 t193 t192 t191 t190 t189 t188 t187 t186 t185 t184 t183 t182 t181 t180 t179 t178 t177 t176 t175 t174 t173 t172 t171 t170 t169 t168 t167 t166 t165 t164 t163 t162 t161 t160 t159 t158 t157 t156 t155 t154 t153 t152 t151 t150 t149 t148 t147 t146 t145 t144 t143 t142 t141 t140 t139 t138 t137 t136 t135 t134 t133 t132 t131 t130 t129 t128 t127 t126 t125 t124 t123 t122 t121 t120 t119 t118 t117 t116 t115 t114 t113 t112 t111 t110 t109 t108 t107 t106 t105 t104 t103 t102 t101 t100 t099 t098 t097 t096 t095 t094 t093 t092 t091 t090 t089 t088 t087 t086 t085 t084 t083 t082 t081 t080 t079 t078 t077 t076 t075 t074 t073 t072 t071 t070 t069 t068 t067 t066 t065 t064 t063 t062 t061 t060 t059 t058 t057 t056 t055 t054 t053 t052 t051 t050 t049 t048 t047 t046 t045 t044 t043 t042 t041 t040 t039 t038 t037 t036 t035 t034 t033 t032 t031 t030 t029 t028 t027 t026 t025 t024 t023 t022 t021 t020 t019 t018 t017 t016 t015 t014 t013 t012 t011 t010 t009 t008 t007 t006 t005 t004 t003 t002 t001 t000} -> =";

const OPERATIONS_OF_MANY: &str = "
insert 1.1 prev 0 after 0.0 text z tags t000 t001 t002 t003 t004 t005 t006 t007 t008 t009 t010 t011 t012 t013 t014 t015 t016 t017 t018 t019 t020 t021 t022 t023 t024 t025 t026 t027 t028 t029 t030 t031 t032 t033 t034 t035 t036 t037 t038 t039 t040 t041 t042 t043 t044 t045 t046 t047 t048 t049 t050 t051 t052 t053 t054 t055 t056 t057 t058 t059 t060 t061 t062 t063 t064 t065 t066 t067 t068 t069 t070 t071 t072 t073 t074 t075 t076 t077 t078 t079 t080 t081 t082 t083 t084 t085 t086 t087 t088 t089 t090 t091 t092 t093 t094 t095 t096 t097 t098 t099 t100 t101 t102 t103 t104 t105 t106 t107 t108 t109 t110 t111 t112 t113 t114 t115 t116 t117 t118 t119 t120 t121 t122 t123 t124 t125 t126 t127 t128 t129 t130 t131 t132 t133 t134 t135 t136 t137 t138 t139 t140 t141 t142 t143 t144 t145 t146 t147 t148 t149 t150 t151 t152 t153 t154 t155 t156 t157 t158 t159 t160 t161 t162 t163 t164 t165 t166 t167 t168 t169 t170 t171 t172 t173 t174 t175 t176 t177 t178 t179 t180 t181 t182 t183 t184 t185 t186 t187 t188 t189 t190 t191 t192 t193 t194 t195 t196 t197 t198 t199 t200 t201 t202 t203 t204 t205 t206 t207 t208 t209 t210 t211 t212 t213 t214 t215 t216 t217 t218 t219 t220 t221 t222 t223 t224 t225 t226 t227 t228 t229 t230 t231 t232 t233 t234 t235 t236 t237 t238 t239 t240 t241 t242 t243 t244 t245 t246 t247 t248 t249 t250 t251 t252 t253 t254
tag 2.1 prev 1 on t255 spans 1:1-1
tag 3.1 prev 2 on t256 spans 1:1-1
";

const MADE: &[(Script, &str)] = &[(COMMANDS, OPERATIONS), (MANY_TAGS, OPERATIONS_OF_MANY)];

#[test]
fn operations_of_commands(rt: HostRuntime) {
    let alloc = rt.alloc();
    for (script, lines) in MADE {
        let log = session(&rt, alloc, 1, &[], &[*script]);
        shows(&rt, alloc, in_pieces(&log, 4096), &(*lines, None));
    }
}
